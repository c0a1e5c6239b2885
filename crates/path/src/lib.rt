// The components of a path: what stands between its slashes.
#![tactic(auto)]

ghost use Rattle.std.specs.Prelude.{◌≡◌, ◌<◌, length};
ghost use Rattle.names.specs.Paths.{starts_at, component_start, component_end, component};
ghost use Rattle.path.specs.Span.{shown_start};

use names::SLASH;

// Where a component stands in its path: the place of its first byte, and its length. Both are 0 if there is none.
#[derive(Clone, Copy)]
pub struct Span {
    pub start: u64,
    pub length: u64,
}

// A component starts at the place: no slash stands there, and it is the path's start or a slash stands before it.
fn starts_at(path: &[u8], i: usize) -> bool
    requires { i < length path.now }
    ensures { result ≡ starts_at path.now i }
{
    if path[i] == SLASH {
        return false;
    }
    if i == 0 {
        return true;
    }
    path[i - 1] == SLASH
}

// Where the first component at or after the place starts; past the path's end if there is none.
pub fn component_start(path: &[u8], at: usize) -> usize
    ensures { result ≡ component_start path.now at }
{
    let mut i = at;
    while i < path.len() {
        if starts_at(path, i) {
            return i;
        }
        i += 1;
    }
    i
}

// Where the component that starts at `from` ends: at the next slash, or with the path.
pub fn component_end(path: &[u8], from: usize) -> usize
    ensures { result ≡ component_end path.now from }
{
    let mut i = from;
    while i < path.len() {
        if path[i] == SLASH {
            return i;
        }
        i += 1;
    }
    i
}

// Where the first component at or after the place stands.
pub fn component_span(path: &[u8], at: u64) -> Span
    ensures start { result.start ≡ shown_start path.now at }
    ensures length { result.length ≡ length (component path.now at) }
{
    let from = component_start(path, at as usize);
    if from >= path.len() {
        return Span {
            start: 0,
            length: 0,
        };
    }
    let to = component_end(path, from);
    Span {
        start: from as u64,
        length: (to - from) as u64,
    }
}

// The first component that starts at or after the place, as its part of the path; empty if there is none.
pub fn component<'a>(path: &'a [u8], at: u64) -> &'a [u8]
    ensures { result.now ≡ component path.now at }
{
    let s = component_span(path, at);
    let from = s.start as usize;
    let to = from + s.length as usize;
    &path[from..to]
}
