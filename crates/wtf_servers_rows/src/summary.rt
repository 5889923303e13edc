//! What is shown of a text, its first line and a summary, on a sink in memory.

use std::alloc::Global;
use wtf_dev::MemSink;
use wtf_summary::show;

/// A first line, and three behind it.
const TEXT: &[u8] = b"first\ncommitted 1\nrefused noent\nok\n";

/// What is shown of it. The digest is that of `sha256sum`.
const SHOWN: &[u8] =
    b"first\nlines 3\ncommitted 1\nretry 0\naborted 0\ninstalled 0\nrefused 1\nother 1\nsha256 dc62fa6f7b663d81408683d2438b70e516b121661507cf7c5be02b03ce65419b\n";

/// Whether a text is shown whole with the summary of three lines, or not, on a sink whose calls with these numbers fail, and
/// the sink then has these bytes.
fn is_shown(alloc: Global, fails: &[u64], text: &[u8], (whole, want): (bool, &[u8])) -> bool {
    let Ok(fails) = Vec::from_slice(alloc, fails) else {
        return false;
    };
    let mut out = MemSink::new(alloc, fails);
    show(&mut out, 3, text) == whole && out.taken() == want
}

#[test]
fn a_summary_follows_the_first_line(rt: HostRuntime) {
    assert!(rt; is_shown(rt.alloc(), &[], TEXT, (true, SHOWN)));
}

#[test]
fn two_of_three_lines_have_no_summary(rt: HostRuntime) {
    let text = b"first\ncommitted 1\nok\nop".as_slice();
    assert!(rt; is_shown(rt.alloc(), &[], text, (true, b"first\n".as_slice())));
}

#[test]
fn a_summary_that_fails_is_not_shown_again(rt: HostRuntime) {
    assert!(rt; is_shown(rt.alloc(), &[6], TEXT, (false, b"first\n".as_slice())));
}
