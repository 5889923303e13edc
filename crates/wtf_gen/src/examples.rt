//! Some lines, by the numbers that give them.

ghost use Rattle.std.specs.Prelude.{◌≡◌, codes};
ghost use Rattle.wtf_gen.specs.Lines.{next_state, drawn, state_line, state_after, generated_script};

/// The first client of the number 0, its first line and the state behind it, and a script of two lines.
fn first_lines()
    ensures client { drawn 8 (next_state 0) ≡ 7 }
    ensures line { state_line 0 ≡ codes "c7 begin" }
    ensures behind { state_after 0 ≡ 1876011003808476466 }
    ensures script { generated_script 0 2 ≡ codes "c7 begin\nc1 step\n" }
{}

/// Lines of transactions.
fn transaction_lines()
    ensures begin { state_line 0 ≡ codes "c7 begin" }
    ensures begin_too { state_line 17 ≡ codes "c0 begin" }
    ensures attempt { state_line 42 ≡ codes "c6 try" }
    ensures commit { state_line 59 ≡ codes "c7 commit" }
    ensures step { state_line 4 ≡ codes "c2 step" }
    ensures abandon { state_line 5 ≡ codes "c0 abort" }
{}

/// Lines that name files.
fn file_lines()
    ensures create { state_line 22 ≡ codes "c1 create /g5" }
    ensures opened { state_line 39 ≡ codes "c2 open f0 /g2" }
    ensures opened_too { state_line 64 ≡ codes "c1 open f3 /g7" }
    ensures stat { state_line 20 ≡ codes "c4 stat /g6" }
    ensures copy { state_line 37 ≡ codes "c5 copy /g1 /g6" }
    ensures unlink { state_line 54 ≡ codes "c6 unlink /g4" }
{}

/// Lines that write and read.
fn byte_lines()
    ensures write { state_line 80 ≡ codes "c3 write f2 x:8a1e71a7" }
    ensures write_too { state_line 26 ≡ codes "c4 write f3 x:838cb49c" }
    ensures append { state_line 35 ≡ codes "c0 append f2 x:daa4a949" }
    ensures read { state_line 44 ≡ codes "c4 read f1 3" }
    ensures seek { state_line 69 ≡ codes "c2 seek f0 set 287" }
    ensures punch { state_line 49 ≡ codes "c5 punch f3 60" }
    ensures truncate { state_line 2 ≡ codes "c4 truncate f0 88" }
{}

/// Lines of slices.
fn slice_lines()
    ensures yank { state_line 6 ≡ codes "c7 yank f1 31 s0" }
    ensures paste { state_line 15 ≡ codes "c3 paste f1 s3" }
    ensures glue { state_line 32 ≡ codes "c4 glue f0 s1" }
    ensures peek { state_line 3 ≡ codes "c3 peek s3 0 10" }
{}

/// Lines to the system.
fn system_lines()
    ensures plan_compact { state_line 342 ≡ codes "sys plan j1 compact /g4 0" }
    ensures plan_spill { state_line 166 ≡ codes "sys plan j1 spill /g7 0" }
    ensures put { state_line 350 ≡ codes "sys put j1" }
    ensures scan { state_line 7 ≡ codes "sys scan" }
    ensures piece { state_line 150 ≡ codes "sys piece 64" }
    ensures collect { state_line 71 ≡ codes "sys collect 0" }
{}
