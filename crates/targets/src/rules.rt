// The target's rules: of one row or entry, and of the whole.
ghost use Rattle.std.specs.Prelude.{◌≡◌, ◌+◌, ◌^◌, ltb, eqb, length};
ghost use Rattle.circuit.specs.Rows.{row};
ghost use Rattle.circuit.specs.Rules.{all_of};
ghost use Rattle.targets.specs.Target.{row_is_sound, entry_fits, value_fits, rows_in, brought, brought_fits};

// How many outputs a table may have: an entry is a byte.
const ENTRY_BITS: usize = 8;

// x is below 2^n; from n = 64 on every number is.
fn is_below(n: usize, x: usize) -> bool
    ensures { result ≡ ltb x (2 ^ n) }
{
    64 <= n || x < 1usize << n
}

// x is 2^n; from n = 64 on no number is.
fn is_power(n: usize, x: usize) -> bool
    ensures { result ≡ eqb x (2 ^ n) }
{
    n < 64 && x == 1usize << n
}

// A row over n inputs: its mask is of those, its constant a bit. A mask of none is a constant output.
fn row_fits(n: usize, mask: usize, constant: usize) -> bool
    ensures { result ≡ row_is_sound n (row mask constant) }
{
    constant < 2 && is_below(n, mask)
}

// What an edit brings, by the target's kind: a row over n inputs; or an entry for m outputs, beside which the constant is 0.
// A flag beside the bytes and no enum: the bench has them so in C's layout.
pub fn value_fits(only: bool, n: usize, m: usize, value: usize, constant: usize) -> bool
    ensures { result ≡ value_fits only n m value constant }
{
    if only {
        row_fits(n, value, constant)
    } else {
        constant == 0 && is_below(m, value)
    }
}

// Every row of a matrix keeps its rule: m masks, and then m constants.
fn rows_fit(n: usize, m: usize, bytes: &[u8]) -> bool
    requires { length bytes.now ≡ m + m }
    ensures { result ≡ all_of (row_is_sound n) (rows_in n m bytes.now) }
{
    (0..m).all(|j| row_fits(n, usize::from(bytes[j]), usize::from(bytes[m + j])))
}

// Every entry of a table keeps its rule.
fn entries_fit(m: usize, bytes: &[u8]) -> bool
    ensures { result ≡ all_of (entry_fits m) bytes.now }
{
    bytes.iter().all(|&entry| is_below(m, usize::from(entry)))
}

// The target's rule for n inputs and m outputs: its length, and each of its rows or entries.
pub fn target_fits(only: bool, n: usize, m: usize, bytes: &[u8]) -> bool
    ensures { result ≡ brought_fits n m (brought only bytes.now) }
{
    if only {
        m <= bytes.len() && bytes.len() - m == m && rows_fit(n, m, bytes)
    } else {
        m <= ENTRY_BITS && is_power(n, bytes.len()) && entries_fit(m, bytes)
    }
}
