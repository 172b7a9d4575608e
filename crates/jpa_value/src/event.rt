//! The events of an entity's life cycle.
ghost use Rattle.std.specs.Prelude.{◌≡◌};
ghost use Rattle.jpa_value.specs.Event.{event_name};

/// What happens to an entity object and is told to listeners and callbacks (chapter 3.5.2).
#[derive(Clone, Copy, Debug)]
pub enum LifecycleEvent {
    PrePersist,
    PostPersist,
    PreRemove,
    PostRemove,
    PreUpdate,
    PostUpdate,
    PostLoad,
}

impl LifecycleEvent {
    /// Its name, as `PrePersist`.
    pub fn name(self) -> &'static str
        ensures { result.now ≡ event_name self }
    {
        match self {
            LifecycleEvent::PrePersist => "PrePersist",
            LifecycleEvent::PostPersist => "PostPersist",
            LifecycleEvent::PreRemove => "PreRemove",
            LifecycleEvent::PostRemove => "PostRemove",
            LifecycleEvent::PreUpdate => "PreUpdate",
            LifecycleEvent::PostUpdate => "PostUpdate",
            LifecycleEvent::PostLoad => "PostLoad",
        }
    }
}
