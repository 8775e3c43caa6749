// The kinds of frames, and their ids.
ghost use Rattle.std.specs.Prelude.{◌≡◌};
ghost use Rattle.net_frames.specs.Kinds.{id_of, kind_with, may_have};

/// The kind of a frame.
#[derive(Clone, Copy, Debug, PartialEq, Eq)]
pub(crate) enum Kind {
    Buffer,
    Error,
    Request,
    Closing,
    Credit,
    Resumption,
    Backlog,
    Size,
}

impl Kind {
    /// The kind with this id.
    pub(crate) fn with_id(id: u8) -> Option<Kind>
        ensures { result ≡ kind_with id }
    {
        match id {
            0 => Some(Kind::Buffer),
            1 => Some(Kind::Error),
            2 => Some(Kind::Request),
            5 => Some(Kind::Closing),
            6 => Some(Kind::Credit),
            7 => Some(Kind::Resumption),
            9 => Some(Kind::Backlog),
            10 => Some(Kind::Size),
            _ => None,
        }
    }

    pub(crate) fn id(self) -> u8
        ensures { result ≡ id_of self }
    {
        match self {
            Kind::Buffer => 0,
            Kind::Error => 1,
            Kind::Request => 2,
            Kind::Closing => 5,
            Kind::Credit => 6,
            Kind::Resumption => 7,
            Kind::Backlog => 9,
            Kind::Size => 10,
        }
    }

    /// Whether a frame of this kind may have this length.
    pub(crate) fn may_have(self, len: u32) -> bool
        ensures { result ≡ may_have self len }
    {
        match self {
            Kind::Buffer => len >= 39,
            Kind::Error => len == 26,
            Kind::Closing => len == 9,
            Kind::Resumption => len == 25,
            Kind::Request | Kind::Credit | Kind::Backlog | Kind::Size => len == 29,
        }
    }
}
