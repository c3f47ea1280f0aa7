ghost use Rattle.std.specs.Prelude.{◌≡◌, ◌++◌, take, vec_len, decimal, OnOk, OnErr};
ghost use Rattle.arbiter_text.specs.Arbiter.{before_number, behind_number, generated_text};

use names_and_numbers::push_number;
use std::alloc::AllocError;

/// Appends the text of an arbiter of that many clients: each asks by an input, each has an output for its grant,
/// at most one grant is given at a time, and each request is granted. Where there is no room, `out` is as it was.
pub fn write_arbiter(clients: u32, out: &mut Vec<u8>) -> Result<(), AllocError>
    ensures ok { OnOk result (out.new.items ≡ out.old.items ++ generated_text clients) }
    ensures err { OnErr result (out.new.items ≡ out.old.items) }
{
    let before = out.len();
    let written = write_between(head(), clients, tail(), out);
    if written.is_err() {
        out.truncate(before);
    }
    written
}

/// Appends the number between the two texts, or a part of it all where there is no room.
fn write_between(
    before: &[u8],
    number: u32,
    behind: &[u8],
    out: &mut Vec<u8>,
) -> Result<(), AllocError>
    ensures ok { OnOk result (out.new.items ≡ out.old.items ++ before.now ++ decimal number ++ behind.now) }
    ensures kept { take (vec_len out.old) out.new.items ≡ out.old.items }
{
    out.extend_from_slice(before)?;
    push_number(out, u64::from(number))?;
    out.extend_from_slice(behind)
}

/// What stands before the number of clients.
fn head() -> &'static [u8]
    ensures { result.now ≡ before_number }
{
    b"INFO {
  TITLE: \"Arbiter\"
  DESCRIPTION: \"One grant at a time, every request is granted\"
  SEMANTICS: Mealy
  TARGET: Mealy
}
GLOBAL {
  PARAMETERS {
    n = "
}

/// What stands behind it.
fn tail() -> &'static [u8]
    ensures { result.now ≡ behind_number }
{
    b";
  }
  DEFINITIONS {
    none(b, i, j) = &&[i <= t <= j] !b[t];
    m(i, j) = (i + j) / 2;
    mone(b, i, j) =
      i > j : false
      i == j : true
      i < j : (none(b, i, m(i, j)) && mone(b, m(i, j) + 1, j))
           || (mone(b, i, m(i, j)) && none(b, m(i, j) + 1, j));
  }
}
MAIN {
  INPUTS {
    r[n];
  }
  OUTPUTS {
    g[n];
  }
  ASSERT {
    mone(g, 0, n - 1);
  }
  GUARANTEE {
    &&[0 <= i < n] G (r[i] -> F g[i]);
  }
}
"
}
