// The kinds of entries.
ghost use Rattle.std.specs.Prelude.{◌≡◌};
ghost use Rattle.access.specs.Kinds.{kind_number, kind_of, make_right, remove_right};

use crate::rights::Rights;

#[derive(Clone, Copy)]
pub enum Kind {
    Regular,
    Directory,
    Character,
    Block,
    Fifo,
    Socket,
    Symlink,
}

// A kind, or none.
#[derive(Clone, Copy)]
pub enum MaybeKind {
    Known(Kind),
    None,
}

impl Kind {
    // The number in an entry's first cell.
    pub fn number(self) -> u64
        ensures { result ≡ kind_number self }
    {
        match self {
            Kind::Regular => 1,
            Kind::Directory => 2,
            Kind::Character => 3,
            Kind::Block => 4,
            Kind::Fifo => 5,
            Kind::Socket => 6,
            Kind::Symlink => 7,
        }
    }

    pub fn of_number(n: u64) -> MaybeKind
        ensures { result ≡ kind_of n }
    {
        match n {
            1 => MaybeKind::Known(Kind::Regular),
            2 => MaybeKind::Known(Kind::Directory),
            3 => MaybeKind::Known(Kind::Character),
            4 => MaybeKind::Known(Kind::Block),
            5 => MaybeKind::Known(Kind::Fifo),
            6 => MaybeKind::Known(Kind::Socket),
            7 => MaybeKind::Known(Kind::Symlink),
            _ => MaybeKind::None,
        }
    }

    // The right that making an entry of this kind needs at its directory.
    pub fn make_right(self) -> Rights
        ensures { result.0 ≡ make_right self }
    {
        match self {
            Kind::Regular => Rights::MAKE_REG,
            Kind::Directory => Rights::MAKE_DIR,
            Kind::Character => Rights::MAKE_CHAR,
            Kind::Block => Rights::MAKE_BLOCK,
            Kind::Fifo => Rights::MAKE_FIFO,
            Kind::Socket => Rights::MAKE_SOCK,
            Kind::Symlink => Rights::MAKE_SYM,
        }
    }

    // The right that removing an entry of this kind needs at its directory.
    pub fn remove_right(self) -> Rights
        ensures { result.0 ≡ remove_right self }
    {
        match self {
            Kind::Directory => Rights::REMOVE_DIR,
            Kind::Regular => Rights::REMOVE_FILE,
            Kind::Character => Rights::REMOVE_FILE,
            Kind::Block => Rights::REMOVE_FILE,
            Kind::Fifo => Rights::REMOVE_FILE,
            Kind::Socket => Rights::REMOVE_FILE,
            Kind::Symlink => Rights::REMOVE_FILE,
        }
    }
}
