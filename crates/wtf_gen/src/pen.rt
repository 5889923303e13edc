//! A line in the making, in a buffer that takes no memory.

ghost use Rattle.std.specs.Prelude.{◌≡◌, ◌+◌, ◌*◌, ◌<◌, ◌≤◌, [], ◌∷◌, ◌++◌, length, decimal};
ghost use Rattle.wtf_gen.specs.Lines.{blank, next_state, drawn, put, number, handle, file, label, job, amount, byte, some_bytes, bytes};

use arrayvec::ArrayVec;
use itoa::Buffer;
use std::marker::Model;

/// The bytes that a line with its line feed may have; the longest has fewer.
pub(crate) const ROOM: usize = 160;

/// The line so far, and the state behind its draws so far.
#[derive(Drop)]
pub(crate) struct Pen {
    state: u64,
    text: ArrayVec<u8, ROOM>,
}

impl Model for Pen {
    ghost use Rattle.wtf_gen.specs.Lines.{Draft};

    ghost Value = { Draft };

    ghost view = { λ p. record { state = p.state; text = p.text.items } };
}

impl Pen {
    /// Nothing is written, and this is the state.
    pub(crate) fn new(state: u64) -> Pen
        ensures { result ≡ blank state }
    {
        Pen {
            state,
            text: ArrayVec::new(),
        }
    }

    /// The state behind the draws.
    pub(crate) fn state(&self) -> u64
        ensures { result ≡ self.now.state }
    {
        self.state
    }

    /// The line so far.
    pub(crate) fn text(&self) -> &[u8]
        ensures value { result.now ≡ self.now.text }
        ensures fits { length result.now ≤ ROOM }
    {
        self.text.as_slice()
    }

    /// The line with its line feed, which is the byte 10.
    pub(crate) fn into_fed(self) -> ArrayVec<u8, ROOM>
        requires { length self.text < ROOM }
        ensures { result.items ≡ self.text ++ 10 ∷ [] }
    {
        let mut text = self.text;
        text.push(b'\n');
        text
    }

    /// Draws a number below a bound that is not 0.
    #[tactic(auto, unfolding(crate::specs::Lines::next_state, crate::specs::Lines::drawn))]
    pub(crate) fn draw(&mut self, bound: u64) -> u64
        requires { 0 < bound }
        ensures state { self.new ≡ record self.old { state = next_state self.old.state } }
        ensures value { result ≡ drawn bound (next_state self.old.state) }
        ensures below { result < bound }
    {
        self.state = self
            .state
            .wrapping_mul(6_364_136_223_846_793_005)
            .wrapping_add(1_442_695_040_888_963_407);
        (self.state >> 33) % bound
    }

    /// Writes a text.
    #[tactic(auto, unfolding(crate::specs::Lines::put))]
    pub(crate) fn put(&mut self, text: &[u8])
        requires { length self.old.text + length text.now ≤ ROOM }
        ensures value { self.new ≡ put text.now self.old }
        ensures len { length self.new.text ≡ length self.old.text + length text.now }
    {
        self.text.try_extend_from_slice(text).unwrap();
    }

    /// Writes a number of up to four digits.
    pub(crate) fn digits(&mut self, n: u64)
        requires below { n < 10_000 }
        requires room { length self.old.text + 4 ≤ ROOM }
        ensures value { self.new ≡ put (decimal n) self.old }
        ensures len { length self.new.text ≤ length self.old.text + 4 }
    {
        let mut buffer = Buffer::new();
        self.put(buffer.format(n).as_bytes());
    }

    /// Draws a number below the bound, and writes it.
    #[tactic(auto, unfolding(crate::specs::Lines::put, crate::specs::Lines::number))]
    fn number(&mut self, bound: u64)
        requires some { 0 < bound }
        requires below { bound ≤ 10_000 }
        requires room { length self.old.text + 4 ≤ ROOM }
        ensures value { self.new ≡ number bound self.old }
        ensures len { length self.new.text ≤ length self.old.text + 4 }
    {
        let n = self.draw(bound);
        self.digits(n);
    }

    /// Draws a handle.
    #[tactic(auto, unfolding(crate::specs::Lines::handle))]
    pub(crate) fn handle(&mut self)
        requires { length self.old.text + 6 ≤ ROOM }
        ensures value { self.new ≡ handle self.old }
        ensures len { length self.new.text ≤ length self.old.text + 6 }
    {
        self.put(b" f");
        self.number(4);
    }

    /// Draws a file.
    #[tactic(auto, unfolding(crate::specs::Lines::file))]
    pub(crate) fn file(&mut self)
        requires { length self.old.text + 7 ≤ ROOM }
        ensures value { self.new ≡ file self.old }
        ensures len { length self.new.text ≤ length self.old.text + 7 }
    {
        self.put(b" /g");
        self.number(8);
    }

    /// Draws the label of a slice.
    #[tactic(auto, unfolding(crate::specs::Lines::label))]
    pub(crate) fn label(&mut self)
        requires { length self.old.text + 6 ≤ ROOM }
        ensures value { self.new ≡ label self.old }
        ensures len { length self.new.text ≤ length self.old.text + 6 }
    {
        self.put(b" s");
        self.number(4);
    }

    /// Draws the label of a job.
    #[tactic(auto, unfolding(crate::specs::Lines::job))]
    pub(crate) fn job(&mut self)
        requires { length self.old.text + 6 ≤ ROOM }
        ensures value { self.new ≡ job self.old }
        ensures len { length self.new.text ≤ length self.old.text + 6 }
    {
        self.put(b" j");
        self.number(2);
    }

    /// Draws a length or an offset below the bound.
    #[tactic(auto, unfolding(crate::specs::Lines::amount))]
    pub(crate) fn amount(&mut self, bound: u64)
        requires some { 0 < bound }
        requires below { bound ≤ 10_000 }
        requires room { length self.old.text + 5 ≤ ROOM }
        ensures value { self.new ≡ amount bound self.old }
        ensures len { length self.new.text ≤ length self.old.text + 5 }
    {
        self.put(b" ");
        self.number(bound);
    }

    /// Draws a byte.
    #[tactic(auto, unfolding(crate::specs::Lines::put, crate::specs::Lines::byte))]
    fn byte(&mut self)
        requires { length self.old.text + 2 ≤ ROOM }
        ensures value { self.new ≡ byte self.old }
        ensures len { length self.new.text ≡ length self.old.text + 2 }
    {
        let b = self.draw(256) as u8;
        let mut digits = [0; 2];
        hex::encode_to_slice(&[b], &mut digits).unwrap();
        self.put(&digits);
    }

    /// Draws this many bytes.
    fn some_bytes(&mut self, n: u64)
        requires { length self.old.text + 2 * n ≤ ROOM }
        ensures value { self.new ≡ some_bytes n self.old }
        ensures len { length self.new.text ≡ length self.old.text + 2 * n }
    {
        for _ in 0..n {
            self.byte();
        }
    }

    /// Draws one byte to 64.
    #[tactic(auto, unfolding(crate::specs::Lines::bytes))]
    pub(crate) fn bytes(&mut self)
        requires { length self.old.text + 131 ≤ ROOM }
        ensures value { self.new ≡ bytes self.old }
        ensures len { length self.new.text ≤ length self.old.text + 131 }
    {
        let n = 1 + self.draw(64);
        self.put(b" x:");
        self.some_bytes(n);
    }
}
