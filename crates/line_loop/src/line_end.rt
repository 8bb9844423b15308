//! Where a line ends: at a line feed, with a carriage return before it or without.

ghost use Rattle.std.specs.Prelude.{◌≡◌, ◌++◌, ◌+◌, ◌∷◌, IfSome, IfNone};
ghost use Rattle.line_loop.specs.Lines.{without_return};
ghost use Rattle.line_loop.specs.steps.Joined.{HasNoFeed};

/// The octets before and after the first line feed.
pub fn split_at_feed(octets: &[u8]) -> Option<(&[u8], &[u8])>
    ensures none { IfNone result (HasNoFeed octets.now) }
    ensures some { IfSome result (λ parts. HasNoFeed parts.0.now × (octets.now ≡ parts.0.now ++ 10 ∷ parts.1.now)) }
{
    let end = memchr::memchr(b'\n', octets)?;
    Some((&octets[..end], &octets[end + 1..]))
}

/// A line without the carriage return at its end.
pub fn without_return(line: &[u8]) -> &[u8]
    ensures { result.now ≡ without_return line.now }
{
    let Some((last, front)) = line.split_last() else {
        return line;
    };
    if *last == b'\r' { front } else { line }
}
