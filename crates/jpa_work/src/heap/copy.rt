//! Copies of live objects.
use crate::heap::{Collection, Held, Link, LiveObject};
use jpa_value::{Cause, Seq, TryCopy};

impl TryCopy for Link {
    fn try_copy(&self) -> Result<Link, Cause> {
        match self {
            Link::None => Ok(Link::None),
            Link::Object(place) => Ok(Link::Object(*place)),
            Link::Key(id) => Ok(Link::Key(id.try_copy()?)),
        }
    }
}

impl TryCopy for Collection {
    fn try_copy(&self) -> Result<Collection, Cause> {
        match self {
            Collection::Unfetched => Ok(Collection::Unfetched),
            Collection::Fetched(places) => {
                let copies = Vec::from_slice(places.allocator(), places.as_slice())?;
                Ok(Collection::Fetched(Seq::of(copies)))
            }
        }
    }
}

impl TryCopy for Held {
    fn try_copy(&self) -> Result<Held, Cause> {
        match self {
            Held::One(link) => Ok(Held::One(link.try_copy()?)),
            Held::Many(collection) => Ok(Held::Many(collection.try_copy()?)),
        }
    }
}

impl TryCopy for LiveObject {
    fn try_copy(&self) -> Result<LiveObject, Cause> {
        Ok(LiveObject {
            class: self.class,
            key: self.key.try_copy()?,
            version: self.version,
            values: self.values.try_copy()?,
            relations: self.relations.try_copy()?,
            life: self.life,
        })
    }
}
