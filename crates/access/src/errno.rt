// What a call answers.
ghost use Rattle.std.specs.Prelude.{◌≡◌};
ghost use Rattle.access.specs.Reply.{is_refused, reply_to};

use crate::rights::Rights;

// An error number, by its Linux name.
#[derive(Clone, Copy)]
pub struct Errno(pub u64);

impl Errno {
    pub const EPERM: Errno = Errno(1);

    pub const ENOENT: Errno = Errno(2);

    pub const ESRCH: Errno = Errno(3);

    pub const EIO: Errno = Errno(5);

    pub const E2BIG: Errno = Errno(7);

    pub const EBADF: Errno = Errno(9);

    pub const EAGAIN: Errno = Errno(11);

    pub const ENOMEM: Errno = Errno(12);

    pub const EACCES: Errno = Errno(13);

    pub const EBUSY: Errno = Errno(16);

    pub const EEXIST: Errno = Errno(17);

    pub const EXDEV: Errno = Errno(18);

    pub const ENOTDIR: Errno = Errno(20);

    pub const EISDIR: Errno = Errno(21);

    pub const EINVAL: Errno = Errno(22);

    pub const EMFILE: Errno = Errno(24);

    pub const ENOSPC: Errno = Errno(28);

    pub const ENAMETOOLONG: Errno = Errno(36);

    pub const ENOTEMPTY: Errno = Errno(39);

    pub const ENOMSG: Errno = Errno(42);

    pub const EBADMSG: Errno = Errno(74);

    pub const EOPNOTSUPP: Errno = Errno(95);
}

// A success with its number (the new entry, ruleset or thread, otherwise 0), a refusal, or the refusal of a verdict, with the youngest layer that
// denies something and what it denies.
#[derive(Clone, Copy)]
pub enum Reply {
    Done(u64),
    Refused(Errno),
    Denied(Errno, u64, Rights),
}

impl Reply {
    // The reply to a number of refusals: 0 for none.
    pub fn to(e: u64) -> Reply
        ensures { result ≡ reply_to e }
    {
        if e == 0 {
            return Reply::Done(0);
        }
        Reply::Refused(Errno(e))
    }

    pub fn is_refused(self) -> bool
        ensures { result ≡ is_refused self }
    {
        match self {
            Reply::Done(_) => false,
            Reply::Refused(_) => true,
            Reply::Denied(_, _, _) => true,
        }
    }
}
