// Right sets: a set of access rights is a mask with one bit for each right.
ghost use Rattle.std.specs.Prelude.{◌≡◌, eqb};
ghost use Rattle.access.specs.Rights.{join, meet, without, within, known_fs, known_net, known_scope, right_at, fs_rights, net_rights, scopes};

#[derive(Clone, Copy)]
pub struct Rights(pub u64);

impl Rights {
    pub const NONE: Rights = Rights(0);

    // The rights on the file system.
    pub const EXECUTE: Rights = Rights(1);

    pub const WRITE_FILE: Rights = Rights(2);

    pub const READ_FILE: Rights = Rights(4);

    pub const READ_DIR: Rights = Rights(8);

    pub const REMOVE_DIR: Rights = Rights(16);

    pub const REMOVE_FILE: Rights = Rights(32);

    pub const MAKE_CHAR: Rights = Rights(64);

    pub const MAKE_DIR: Rights = Rights(128);

    pub const MAKE_REG: Rights = Rights(256);

    pub const MAKE_SOCK: Rights = Rights(512);

    pub const MAKE_FIFO: Rights = Rights(1024);

    pub const MAKE_BLOCK: Rights = Rights(2048);

    pub const MAKE_SYM: Rights = Rights(4096);

    pub const REFER: Rights = Rights(8192);

    pub const TRUNCATE: Rights = Rights(16384);

    pub const IOCTL_DEV: Rights = Rights(32768);

    // The rights on the network.
    pub const BIND_TCP: Rights = Rights(1);

    pub const CONNECT_TCP: Rights = Rights(2);

    // The scopes.
    pub const ABSTRACT_UNIX_SOCKET: Rights = Rights(1);

    pub const SIGNAL: Rights = Rights(2);

    // Every right of each sort.
    pub const ALL_FS: Rights = Rights(65535);

    pub const ALL_NET: Rights = Rights(3);

    // The file set: what can be asked of an entry that is no directory.
    pub const FILE: Rights = Rights(49159);

    // The write set: what no rule can grant at the root.
    pub const WRITE: Rights = Rights(32754);

    // The rights that each level knows.
    pub const FS_LEVEL_0: Rights = Rights(0);

    pub const FS_LEVEL_1: Rights = Rights(8191);

    pub const FS_LEVEL_2: Rights = Rights(16383);

    pub const FS_LEVEL_3: Rights = Rights(32767);

    pub const FS_LEVEL_4: Rights = Rights(32767);

    // Level 6 adds none.
    pub const FS_LEVEL_5: Rights = Rights(65535);
    // No network rights below level 4, and no scopes below level 6.
    pub const NET_LEVEL_4: Rights = Rights(3);

    pub const SCOPE_LEVEL_6: Rights = Rights(3);

    pub fn join(self, other: Rights) -> Rights
        ensures { result.0 ≡ join self.0 other.0 }
    {
        Rights(self.0 | other.0)
    }

    pub fn meet(self, other: Rights) -> Rights
        ensures { result.0 ≡ meet self.0 other.0 }
    {
        Rights(self.0 & other.0)
    }

    pub fn without(self, other: Rights) -> Rights
        ensures { result.0 ≡ without self.0 other.0 }
    {
        Rights(self.0 ^ (self.0 & other.0))
    }

    pub fn contains(self, other: Rights) -> bool
        ensures { result ≡ within other.0 self.0 }
    {
        self.0 & other.0 == other.0
    }

    pub fn is_empty(self) -> bool
        ensures { result ≡ eqb self.0 0 }
    {
        self.0 == 0
    }

    // The file system rights that a level knows.
    pub fn known_fs(level: u64) -> Rights
        ensures { result.0 ≡ known_fs level }
    {
        match level {
            0 => Rights::FS_LEVEL_0,
            1 => Rights::FS_LEVEL_1,
            2 => Rights::FS_LEVEL_2,
            3 => Rights::FS_LEVEL_3,
            4 => Rights::FS_LEVEL_4,
            _ => Rights::FS_LEVEL_5,
        }
    }

    // The network rights that a level knows.
    pub fn known_net(level: u64) -> Rights
        ensures { result.0 ≡ known_net level }
    {
        if level < 4 {
            Rights::NONE
        } else {
            Rights::NET_LEVEL_4
        }
    }

    // The scopes that a level knows.
    pub fn known_scope(level: u64) -> Rights
        ensures { result.0 ≡ known_scope level }
    {
        if level < 6 {
            Rights::NONE
        } else {
            Rights::SCOPE_LEVEL_6
        }
    }

    // The file system right with a bit's number; none past the last.
    pub fn fs_right(i: u64) -> Rights
        ensures { result.0 ≡ right_at fs_rights i }
    {
        match i {
            0 => Rights::EXECUTE,
            1 => Rights::WRITE_FILE,
            2 => Rights::READ_FILE,
            3 => Rights::READ_DIR,
            4 => Rights::REMOVE_DIR,
            5 => Rights::REMOVE_FILE,
            6 => Rights::MAKE_CHAR,
            7 => Rights::MAKE_DIR,
            8 => Rights::MAKE_REG,
            9 => Rights::MAKE_SOCK,
            10 => Rights::MAKE_FIFO,
            11 => Rights::MAKE_BLOCK,
            12 => Rights::MAKE_SYM,
            13 => Rights::REFER,
            14 => Rights::TRUNCATE,
            15 => Rights::IOCTL_DEV,
            _ => Rights::NONE,
        }
    }

    // The network right with a bit's number.
    pub fn net_right(i: u64) -> Rights
        ensures { result.0 ≡ right_at net_rights i }
    {
        match i {
            0 => Rights::BIND_TCP,
            1 => Rights::CONNECT_TCP,
            _ => Rights::NONE,
        }
    }

    // The scope with a bit's number.
    pub fn scope_right(i: u64) -> Rights
        ensures { result.0 ≡ right_at scopes i }
    {
        match i {
            0 => Rights::ABSTRACT_UNIX_SOCKET,
            1 => Rights::SIGNAL,
            _ => Rights::NONE,
        }
    }
}
