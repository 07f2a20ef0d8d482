/// What seats may agree on. A value is ghost data: none is ever made, and only contracts mention it.
pub trait Value {
    /// The value of an agreement until its first change.
    ghost initial: { Self };
}

/// Data that determines how a value changes.
pub trait Change<V> {
    /// The new value, from the change and the old value.
    ghost changed: { Self → V → V };
}
