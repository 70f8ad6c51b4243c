//! The elements of a manifest.

/// Whose members are meant.
#[derive(Clone, Copy)]
pub(crate) enum Owner {
    /// The manifest's own: of version 1 they are those of its one application.
    Manifest,
    /// Those of the application at this index of `apps`.
    App(usize),
}

/// An element of a manifest.
#[derive(Clone, Copy)]
pub(crate) enum Element<'a> {
    /// The manifest, or an application.
    Whole(Owner),
    /// A member.
    Member(Owner, &'a str),
    /// An item of a member.
    Item(Owner, &'a str, usize),
    /// The end of what has this name.
    End(&'a str),
}
