// What the target wants of each output on every input, in words.
ghost use Rattle.std.specs.Prelude.{◌≡◌, ◌+◌, ◌<◌, ◌≤◌, get_or};
ghost use Rattle.circuit.specs.Sizes.{most_inputs, most_outputs};
ghost use Rattle.circuit.specs.Gate.{bit, no_words};
ghost use Rattle.circuit.specs.Lines.{input_words};
ghost use Rattle.circuit.specs.Rows.{row};
ghost use Rattle.targets.specs.Target.{target_by};
ghost use Rattle.targets.specs.Wanted.{packed, mask_words, row_words, column_words, wanted_words, wanted_in};

use circuit::{INPUTS, NO_WORDS, OUTPUTS, VALUES, Words, gate};

// The inputs in words: bit b of word w of input i is bit i of 64 w + b.
const INPUT_WORDS: [Words; INPUTS] = [
    Words {
        w0: 0xAAAA_AAAA_AAAA_AAAA,
        w1: 0xAAAA_AAAA_AAAA_AAAA,
        w2: 0xAAAA_AAAA_AAAA_AAAA,
        w3: 0xAAAA_AAAA_AAAA_AAAA,
    },
    Words {
        w0: 0xCCCC_CCCC_CCCC_CCCC,
        w1: 0xCCCC_CCCC_CCCC_CCCC,
        w2: 0xCCCC_CCCC_CCCC_CCCC,
        w3: 0xCCCC_CCCC_CCCC_CCCC,
    },
    Words {
        w0: 0xF0F0_F0F0_F0F0_F0F0,
        w1: 0xF0F0_F0F0_F0F0_F0F0,
        w2: 0xF0F0_F0F0_F0F0_F0F0,
        w3: 0xF0F0_F0F0_F0F0_F0F0,
    },
    Words {
        w0: 0xFF00_FF00_FF00_FF00,
        w1: 0xFF00_FF00_FF00_FF00,
        w2: 0xFF00_FF00_FF00_FF00,
        w3: 0xFF00_FF00_FF00_FF00,
    },
    Words {
        w0: 0xFFFF_0000_FFFF_0000,
        w1: 0xFFFF_0000_FFFF_0000,
        w2: 0xFFFF_0000_FFFF_0000,
        w3: 0xFFFF_0000_FFFF_0000,
    },
    Words {
        w0: 0xFFFF_FFFF_0000_0000,
        w1: 0xFFFF_FFFF_0000_0000,
        w2: 0xFFFF_FFFF_0000_0000,
        w3: 0xFFFF_FFFF_0000_0000,
    },
    Words {
        w0: 0,
        w1: 0xFFFF_FFFF_FFFF_FFFF,
        w2: 0,
        w3: 0xFFFF_FFFF_FFFF_FFFF,
    },
    Words {
        w0: 0,
        w1: 0,
        w2: 0xFFFF_FFFF_FFFF_FFFF,
        w3: 0xFFFF_FFFF_FFFF_FFFF,
    },
];

// The words of input i; an input past the eighth has none.
pub fn input_words(i: usize) -> Words
    ensures { result ≡ get_or input_words i no_words }
{
    if i < INPUTS { INPUT_WORDS[i] } else { NO_WORDS }
}

// The sum of the words of the inputs that a mask has.
fn mask_words(mask: u8) -> Words
    ensures { result ≡ mask_words most_inputs mask }
{
    let mut w = NO_WORDS;
    for i in 0..INPUTS {
        if (mask >> i) % 2 == 1 {
            w = gate::eval_gate(0, w, input_words(i));
        }
    }
    w
}

// What a row wants: that sum, inverted where its constant is 1.
fn row_words(mask: u8, constant: u8) -> Words
    ensures { result ≡ row_words (row mask constant) }
{
    let w = mask_words(mask);
    if constant == 1 {
        gate::eval_gate(6, w, w)
    } else {
        w
    }
}

// Bit j of 64 entries of a table, from one on, in a word. The last comes first, so that each turn doubles the word: a sum
// is quicker than a shift by a variable.
fn column_word(table: &[u8; VALUES], from: usize, j: usize) -> u64
    requires { (from ≤ 192) × (j < most_outputs) }
    ensures { result ≡ packed (λ b. bit j (get_or table.now (from + b) 0)) 64 }
{
    let mut w: u64 = 0;
    for b in (0..64).rev() {
        w = w + w + (u64::from(table[from + b]) >> j) % 2;
    }
    w
}

// What a table wants of output j.
fn column_words(table: &[u8; VALUES], j: usize) -> Words
    requires { j < most_outputs }
    ensures { result ≡ column_words table.now j }
{
    Words {
        w0: column_word(table, 0, j),
        w1: column_word(table, 64, j),
        w2: column_word(table, 128, j),
        w3: column_word(table, 192, j),
    }
}

// What the target wants of output j of m: the constants of a matrix stand behind its masks.
fn wanted_by(only: bool, target: &[u8; VALUES], m: usize, j: usize) -> Words
    requires { (m ≤ most_outputs) × (j < m) }
    ensures { result ≡ wanted_words (target_by only most_inputs m target.now) j }
{
    if only {
        row_words(target[j], target[m + j])
    } else {
        column_words(target, j)
    }
}

// What the target wants of each of m outputs, at most as many as there may be, in words.
pub fn wanted_words(only: bool, target: &[u8; VALUES], m: usize) -> [Words; OUTPUTS]
    ensures { result ≡ wanted_in only target.now m }
{
    let count = m.min(OUTPUTS);
    let mut wanted = [NO_WORDS; OUTPUTS];
    for j in 0..count {
        wanted[j] = wanted_by(only, target, count, j);
    }
    wanted
}
