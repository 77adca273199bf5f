//! What an item of a menu is.
ghost use Rattle.std.specs.Prelude.{◌≡◌};
ghost use Rattle.sws_gopher.specs.Menus.{sign as sign_of, slash_after as slash_behind};

/// What an item of a menu is, in the order in which items of one name stand.
#[derive(Clone, Copy, Debug, PartialEq, Eq, PartialOrd, Ord)]
pub enum Kind {
    /// A file that is sent as a text.
    Text,

    /// A file that is sent as it is.
    Binary,

    /// A folder, whose menu is sent.
    Folder,
}

impl Kind {
    /// The character that says it in a menu (RFC 1436, section 3.8).
    pub(crate) fn sign(self) -> u8
        ensures { result ≡ sign_of self }
    {
        match self {
            Kind::Text => b'0',
            Kind::Binary => b'9',
            Kind::Folder => b'1',
        }
    }

    /// What stands behind its selector.
    pub(crate) fn slash_after(self) -> &'static [u8]
        ensures { result.now ≡ slash_behind self }
    {
        match self {
            Kind::Text | Kind::Binary => b"",
            Kind::Folder => b"/",
        }
    }
}
