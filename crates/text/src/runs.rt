// The longest first run of bytes of one kind: what stands after it, and whether it is all.
ghost use Rattle.std.specs.Prelude.{◌≡◌, ◌≤◌, length};
ghost use Rattle.rules.specs.Reading.Lines.{after, every};
ghost use Rattle.scan.specs.Kinds.{kind_of};

use scan::{ByteKind, run_length};

// What stands after the longest first run of a kind.
pub fn after(s: &[u8], k: ByteKind) -> &[u8]
    ensures rest { result.now ≡ after (kind_of k) s.now }
    ensures within { length result.now ≤ length s.now }
{
    let n = run_length(s, k);
    &s[n..]
}

// Whether every byte is of a kind.
pub fn every(s: &[u8], k: ByteKind) -> bool
    ensures { result ≡ every (kind_of k) s.now }
{
    run_length(s, k) == s.len()
}
