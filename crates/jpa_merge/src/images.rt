//! The images of the nodes of a merge.
ghost use Rattle.std.specs.Prelude.{◌≡◌, ℕ, None, Some, nat_eq, ◌==◌, if◌then◌else◌, IfOk, OnOk};
ghost use Rattle.std.specs.HashMap.{get};
ghost use Rattle.std.specs.Option.{option_or};
ghost use Rattle.jpa_merge.specs.Merge as merges;

use std::alloc::{AllocError, Global};
use std::collections::HashMap;
use std::marker::Model;

/// A node of the cascade of a merge and its image, by their places in the heap; fresh where the
/// merge made the image.
#[derive(Clone, Copy)]
pub struct NodeImage {
    pub node: usize,
    pub image: usize,
    pub fresh: bool,
}

/// The nodes of a merge with their images, in the order of the waves. An image is found by its
/// node, not by a walk.
///
/// Contracts see it as the list.
#[derive(Drop)]
pub struct Images {
    list: Vec<NodeImage>,
    // The image of each node.
    places: HashMap<usize, usize>,
}

impl Model for Images {
    ghost use Rattle.std.specs.Prelude.{◌≡◌, ℕ, List, nat_eq};
    ghost use Rattle.std.specs.HashMap.{get};
    ghost use Rattle.jpa_merge.specs.declared.images.NodeImage.{NodeImage};
    ghost use Rattle.jpa_merge.specs.Merge.{image_among};

    ghost Value = { List NodeImage };

    ghost view = { λ x. x.list.items };

    ghost invariant = { λ x. (n : ℕ) → get nat_eq x.places n ≡ image_among x.list.items n };
}

/// Notes a node's image, unless the node has one already. For want of memory nothing is noted.
fn note(places: &mut HashMap<usize, usize>, image: NodeImage) -> Result<(), AllocError>
    ensures noted { OnOk result ((n : ℕ) → get nat_eq places.new n ≡ option_or
        (get nat_eq places.old n) (if image.node == n then Some image.image else None)) }
{
    if !places.contains_key(&image.node) {
        places.insert(image.node, image.image)?;
    }
    Ok(())
}

/// The image of each node: the first, where it has several.
fn places_of(alloc: Global, list: &[NodeImage]) -> Result<HashMap<usize, usize>, AllocError>
    ensures { IfOk result
        (λ places. (n : ℕ) → get nat_eq places n ≡ merges.image_among list.now n) }
{
    let mut places = HashMap::new(alloc);
    for image in list {
        note(&mut places, *image)?;
    }
    Ok(places)
}

impl Images {
    /// These images, in this order.
    pub fn of(alloc: Global, list: Vec<NodeImage>) -> Result<Images, AllocError>
        ensures { IfOk result (λ images. images ≡ list.items) }
    {
        let places = places_of(alloc, list.as_slice())?;
        Ok(Images { list, places })
    }

    /// The nodes with their images, in the order of the waves.
    pub fn as_slice(&self) -> &[NodeImage]
        ensures { result.now ≡ self.now }
    {
        self.list.as_slice()
    }

    /// The image of a node; none of what is no node. Takes no memory, and no walk.
    pub fn get(&self, node: usize) -> Option<usize>
        ensures { result ≡ merges.image_among self.now node }
    {
        self.places.get(&node).copied()
    }
}
