// What is written: answers and cells.
use access::errno::Reply;
use std::io;

// The number of a success, or E and the number of the error.
pub fn answer(rt: &impl Print, reply: Reply) -> io::Result<()> {
    match reply {
        Reply::Done(n) => print!(rt; " {n}"),
        Reply::Refused(e) => print!(rt; " E{}", e.0),
        // No verdict is asked for here.
        Reply::Denied(_, _, _) => print!(rt; " denied"),
    }
}

// The cells of a table that are not zero, as `name[cell]=value`.
pub fn cells(rt: &impl Print, name: &str, t: &[u64]) -> io::Result<()> {
    let mut i = 0;
    while i < t.len() {
        let v = t[i];
        if v != 0 {
            print!(rt; "{name}[{i}]={v}")?;
        }
        i += 1;
    }
    Ok(())
}
