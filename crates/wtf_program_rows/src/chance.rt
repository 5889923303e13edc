//! Scripts whose lines come by chance, and end quietly.

use std::alloc::Global;
use std::test::Fail;

/// Lines of which some are drawn for a script: C is the digit of a client or a job, F of a file, and N any but 0. Some leave
/// a transaction open, and those behind them are then of that one.
const BLOCKS: [&str; 17] = [
    "cC begin\ncC create /fF\ncC open f0 /fF\ncC seek f0 set N0\ncC write f0 t:0123456789\ncC try\n",
    "cC begin\ncC open f0 /fF\ncC seek f0 set N\ncC write f0 t:abcdefghij\ncC commit\n",
    "cC begin\ncC open f0 /fF\ncC append f0 t:abcdefg\ncC try\n",
    "cC begin\ncC open f0 /fF\ncC truncate f0 N0\ncC try\n",
    "cC begin\ncC copy /fF /gN\ncC try\n",
    "cC begin\ncC unlink /fF\ncC try\n",
    "cC begin\ncC stat /fF\ncC create /fF\ncC open f1 /fF\ncC write f1 t:vwxyz\n",
    "cC commit\n",
    "cC abort\n",
    "sys plan jC compact /fF 0\n",
    "sys plan jC spill /fF 0\n",
    "sys put jC\n",
    "sys scan\n",
    "sys scan\nsys piece 64\n",
    "sys piece 1N\n",
    "sys collect 0\nsys collect 1\n",
    "sys save\n",
];

/// How many blocks a script has.
const TURNS: u8 = 30;

/// All that is open ends.
const REST: &str =
    "c0 abort\nc1 abort\nc2 abort\nsys drop j0\nsys drop j1\nsys drop j2\nsys piece 64\n";

/// A quiet ending for both servers, and then what is there.
pub(crate) const ENDING: &str = "sys save
sys scan
sys piece 64
sys scan
sys piece 64
sys collect 0
sys collect 1
sys tree
sys dump /f0
sys dump /f1
sys dump /f2
sys dump /f3
";

/// A script that grows by draws, which one number begins, and the digits that its next block gets.
#[derive(Drop)]
struct Chance {
    state: u64,
    client: u8,
    file: u8,
    other: u8,
    script: Vec<u8>,
}

impl Chance {
    /// The next draw, below n.
    fn below(&mut self, n: u64) -> u64 {
        self.state = self
            .state
            .wrapping_mul(6_364_136_223_846_793_005)
            .wrapping_add(1_442_695_040_888_963_407);
        (self.state >> 33) % n.max(1)
    }

    /// One of so many digits, from this one on.
    fn digit(&mut self, first: u8, n: u64) -> u8 {
        first.wrapping_add(u8::try_from(self.below(n)).unwrap_or(0))
    }

    /// What stands in the script where a block has this byte.
    fn filled(&self, byte: u8) -> u8 {
        if byte == b'C' {
            return self.client;
        }
        if byte == b'F' {
            return self.file;
        }
        if byte == b'N' {
            return self.other;
        }
        byte
    }

    fn add(&mut self, block: &str) -> Result<(), Fail> {
        for byte in block.as_bytes().iter() {
            let filled = self.filled(*byte);
            self.script.push(filled)?;
        }
        Ok(())
    }

    /// Adds a block by chance.
    fn turn(&mut self) -> Result<(), Fail> {
        self.client = self.digit(b'0', 3);
        self.file = self.digit(b'0', 4);
        self.other = self.digit(b'1', 9);
        let drawn = self.below(BLOCKS.len() as u64) as usize;
        self.add(BLOCKS.get(drawn).copied().unwrap_or(""))
    }

    /// Adds all blocks and what ends them.
    fn turns(&mut self) -> Result<(), Fail> {
        for _ in 0..TURNS {
            self.turn()?;
        }
        self.add(REST)?;
        self.add(ENDING)
    }
}

/// The script of a number.
pub(crate) fn script_of(alloc: Global, number: u64) -> Result<Vec<u8>, Fail> {
    let mut chance = Chance {
        state: number,
        client: b'0',
        file: b'0',
        other: b'1',
        script: Vec::new(alloc),
    };
    chance.turns()?;
    Ok(chance.script)
}
