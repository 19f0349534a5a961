ghost use Rattle.std.specs.Prelude.{◌≡◌, ◌≤◌, IfOk};
ghost use Rattle.ccpp_gen.specs.LoadSource.{load_source};

use ccpp_edge::{Bytes, Memory};
use std::alloc::Global;

/// What stands behind the lines that say how many cells there are and how wide the tree is.
const PROGRAM: &str = "global class Cell {
public:
  int own;
  Cell *global sync next;
  Cell(int k) { own = k; }
  int pass(int hops, int sum) {
    if (hops == 0) return sum;
    return next->pass(hops - 1, sum + own);
  }
};
int tree(int lo, int hi) {
  if (hi - lo == 1) return lo;
  int mid = (lo + hi) / 2;
  sync int a, b;
  par { a = tree(lo, mid); b = tree(mid, hi); }
  return a + b;
}
int main() {
  Cell *global c[CELLS];
  for (int i = 0; i < CELLS; i++) c[i] = new Cell(i + 1);
  parfor (int i = 0; i < CELLS; i++) c[i]->next = c[(i + 1) % CELLS];
  int s = c[0]->pass(WIDE, 0);
  int t = tree(0, WIDE);
  cout << s << \" \" << t << endl;
  return s + t;
}
";

/// The text of the load program of a size: a call is handed round 1 + `size` mod 8 processors `size` times, and `size` leaves of a
/// tree of branches are added up. Only want of memory is an error.
pub fn make_source(alloc: Global, size: u32) -> Result<Bytes, Memory>
    requires some { 1 ≤ size }
    requires most { size ≤ 10000 }
    ensures { IfOk result (λ text. text ≡ load_source size) }
{
    let cells = 1 + size % 8;
    let text = format!(in alloc;
        "#include <iostream.h>\nconst int CELLS = {cells};\nconst int WIDE = {size};\n{PROGRAM}"
    )?;
    Bytes::from_slice(alloc, text.as_bytes())
}
