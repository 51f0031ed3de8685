// What is known of a handle.
ghost use Rattle.std.specs.Prelude.{◌≡◌, ◌+◌, ℕ, List, length, IfOk, OnErr};
ghost use Rattle.db_keeper.specs.Keeping.{KeeperMeaning};
ghost use Rattle.db_pool.specs.Handling.{HandleActs, HandleKept, replaced, has_spare};

use sml_syntax::{NoMemory, Text};
use web_data::{DbAns, DbCmd};

/// A database with its keepers.
pub trait Handled: Drop {
    /// The database's name. No call changes it.
    ghost name: { Self → List ℕ };

    /// The keeper that stands, and then the spares in their order.
    ghost keepers: { Self → List KeeperMeaning };

    /// The database's name.
    fn name(&self) -> &Text
        ensures { result.now ≡ name self.now };

    /// Runs a command by the keeper that stands. A failure is answered as `Fault`, with that keeper's count.
    fn act(&mut self, cmd: &DbCmd) -> Result<DbAns, NoMemory>
        ensures ok { IfOk result (λ answer. HandleActs (keepers self.old) cmd.now answer (keepers self.new)) }
        ensures err { OnErr result (HandleKept (keepers self.old) (keepers self.new)) }
        ensures name { name self.new ≡ name self.old };

    /// Drops the keeper that stands and lets the next spare stand. False, and nothing changes, where no spare is left.
    fn replace(&mut self) -> bool
        ensures answer { result ≡ has_spare (keepers self.old) }
        ensures keepers { keepers self.new ≡ replaced (keepers self.old) }
        ensures name { name self.new ≡ name self.old };

    /// How many spares are left.
    fn spares(&self) -> u64
        ensures { result + 1 ≡ length (keepers self.now) };
}
