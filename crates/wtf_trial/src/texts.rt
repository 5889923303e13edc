//! Scripts with their outputs, and images.

pub const SCRIPT: &[u8] =
    b"c0 begin\nc0 create /a\nc0 open f0 /a\nc0 write f0 t:abcdef\nc0 seek f0 set 0\nc0 read f0 9\nc0 try\n";

pub const OUTPUT: &[u8] =
    b"wtf servers 4 replicas 2 region 65536 number 0\nbegun 0\nok\nok\nok\nok\ndata x:616263646566\ncommitted 1\n";

/// The settings line alone.
pub const FIRST_LINE: &[u8] = b"wtf servers 4 replicas 2 region 65536 number 0\n";

/// The image of an empty store.
pub const EMPTY_IMAGE: &[u8] =
    b"WTFIMG02\x04\x02\x00\x01\x00\x00\x00\x00\x00\x00\x00\x00\x00\x00\x00\x00\x00\x00\x00\x00\x00\x01\x00\x00\x00\x01\x00\x01/\x00\x00\x00\x00\x00";

/// The lines of refused images.
pub const REFUSALS: [&[u8]; 4] = [
    b"image refused 1 notanimage\n",
    b"image refused 2 badtree\n",
    b"image refused 3 pointeroutside\n",
    b"image refused 4 badsettings\n",
];

/// A run on what one before left.
pub const LATER_SCRIPT: &[u8] = b"c0 begin\nc0 stat /a\nc0 try\n";

/// Files in a directory, one of which is joined of the others.
pub const LOG_SCRIPT: &[u8] =
    b"c0 begin\nc0 mkdir /logs\nc0 create /logs/mon\nc0 create /logs/tue\nc0 open f0 /logs/mon\nc0 write f0 t:m1m2\nc0 open f1 /logs/tue\nc0 write f1 t:t1\nc0 try\nc1 begin\nc1 concat /logs/week /logs/mon /logs/tue\nc1 open f0 /logs/week\nc1 yank f0 2 s0\nc1 glue f0 s0\nc1 cut s0 1 1 s1\nc1 peek s1 0 1\nc1 rmdir /logs\nc1 try\nsys tree\nsys dump /logs/week\n";

pub const AFTER_FIRST: &[u8] =
    b"wtf servers 4 replicas 2 region 65536 number 1\nbegun 1\nfile 6\ncommitted 2\n";

pub const LATER_OUTPUT: &[u8] =
    b"wtf servers 3 replicas 2 region 65536 number 1\nbegun 1\nfile 2\ncommitted 2\n";

/// A write with one of three servers down, one with two of them down, and reads with all down and with all up again.
pub const THREE_SCRIPT: &[u8] =
    b"c0 begin\nc0 create /a\nc0 open f0 /a\nsys down 0\nc0 write f0 t:ab\nc0 seek f0 set 0\nc0 read f0 2\nsys down 1\nc0 write f0 t:c\nsys down 2\nc0 seek f0 set 0\nc0 read f0 2\nsys up 0\nsys up 1\nsys up 2\nc0 read f0 2\nc0 try\n";

pub const THREE_OUTPUT: &[u8] =
    b"wtf servers 3 replicas 2 region 65536 number 0\nbegun 0\nok\nok\nok\nok\nok\ndata x:6162\nok\nfault write\nok\nok\nfault read 2\nok\nok\nok\ndata x:6162\ncommitted 1\n";

/// The same where a store that is up fails in the first write: there is no third server to take its place, and the file
/// stays empty.
pub const THREE_UNWRITTEN: &[u8] =
    b"wtf servers 3 replicas 2 region 65536 number 0\nbegun 0\nok\nok\nok\nfault write\nok\ndata x:\nok\nfault write\nok\nok\ndata x:\nok\nok\nok\ndata x:\ncommitted 1\n";

/// Lines with each kind of fault; a line of 65,537 bytes stands between the two parts, and the last has no line feed.
pub const BAD_FRONT: &[u8] = b"c0 fly\nc0 write f0 x:123\n";

pub const BAD_BACK: &[u8] =
    b"\n c0 begin\nc32 begin\nc0 read f0 8193\nc0 mkdir a\nc0 mkdir /a/\n\nc0 seek f0 end 3\nc0 tell h0\nc0 begin";

pub const BAD_OUTPUT: &[u8] =
    b"wtf servers 4 replicas 2 region 65536 number 0\nbad verb\nbad data\nbad long\nbad space\nbad actor\nbad limit\nbad path 2\nbad path 6\nbad empty\nbad count\nbad handle\nbegun 0\n";
