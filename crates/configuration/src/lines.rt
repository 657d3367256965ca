//! Lines of a text.
ghost use Rattle.std.specs.Prelude.{◌≡◌, ◌≤◌, length};
ghost use Rattle.configuration.specs.Lines.{line_at};

/// The number of the line of a text in which the octet of this index stands, counted from 1; at the
/// text's end, that of its last line.
pub fn line_at(text: &str, index: usize) -> usize
    requires { index ≤ length text.now }
    ensures { result ≡ line_at text.now index }
{
    let before = &text.as_bytes()[..index];
    1 + before.iter().filter(|octet| **octet == b'\n').count()
}
