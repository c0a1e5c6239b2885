// Free space: whole blocks of cells tested at once.
#![tactic(auto)]

ghost use Rattle.std.specs.Prelude.{◌≡◌};
ghost use Rattle.laws.specs.Cells.{zeros};

// The eight cells are 0.
fn block_zero(block: &[u64; 8]) -> bool
    ensures { result ≡ zeros block.now }
{
    let low = block[0] | block[1] | block[2] | block[3];
    let high = block[4] | block[5] | block[6] | block[7];
    (low | high) == 0
}

// Every cell is 0.
pub fn all_zero(t: &[u64]) -> bool
    ensures { result ≡ zeros t.now }
{
    let (blocks, rest) = t.as_chunks::<8>();
    for block in blocks {
        if !block_zero(block) {
            return false;
        }
    }
    cells::all_zero(rest)
}
