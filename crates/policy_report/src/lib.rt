// What is said of a name in two policy files: a number, and a report of the file, a place in it and a length.
#![tactic(auto)]

ghost use Rattle.std.specs.Prelude.{◌≡◌, ◌-◌};
ghost use Rattle.named.specs.Policy.{found_number, place, file_number, found_place, placed};

use access::errno::Errno;
use cells::write;
use policy::{File, Found, Span};

// The number with which the files or the name are refused, or 0.
pub fn found_number(found: Found) -> u64
    ensures { result ≡ found_number found }
{
    match found {
        Found::At(_, _) => 0,
        Found::TooBig(_) => Errno::E2BIG.0,
        Found::Damaged(_, _) => Errno::EBADMSG.0,
        Found::Missing => Errno::ENOENT.0,
    }
}

fn file_number(file: File) -> u64
    ensures { result ≡ file_number file }
{
    match file {
        File::Stock => 0,
        File::Site => 1,
    }
}

fn size_of(s: Span) -> usize
    ensures { result ≡ s.end - s.at }
{
    if s.end < s.at {
        return 0;
    }
    s.end - s.at
}

// A report of three cells; of a shorter one the cells that there are.
fn report_place(cells: &mut [u64], file: u64, at: u64, size: u64)
    ensures { cells.new ≡ placed cells.old (place file at size) }
{
    write(cells, 0, file);
    write(cells, 1, at);
    write(cells, 2, size);
}

// The report where there is nothing to say.
pub fn report_nothing(cells: &mut [u64])
    ensures { cells.new ≡ placed cells.old (place 0 0 0) }
{
    report_place(cells, 0, 0, 0);
}

// The ruleset's part, or the place of the fault.
pub fn report_found(cells: &mut [u64], found: Found)
    ensures { cells.new ≡ placed cells.old (found_place found) }
{
    match found {
        Found::At(file, s) => {
            report_place(cells, file_number(file), s.at as u64, size_of(s) as u64);
        }
        Found::TooBig(file) => {
            report_place(cells, file_number(file), 0, 0);
        }
        Found::Damaged(file, at) => {
            report_place(cells, file_number(file), at as u64, 0);
        }
        Found::Missing => {
            report_nothing(cells);
        }
    }
}
