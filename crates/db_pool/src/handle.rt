// A handle over boxed keepers.
ghost use Rattle.std.specs.Prelude.{◌≡◌, ◌<◌, ◌∷◌, length, IfOk};

use crate::Handled;
use db_keeper::{Keeper, KeeperFault};
use sml_syntax::{NoMemory, Text};
use std::alloc::Global;
use web_data::{DbAns, DbCmd};

/// A database, of which one keeper stands and the others are spares in their order.
#[derive(Drop)]
pub struct Handle {
    pub(crate) name: Text,
    pub(crate) standing: Box<dyn Keeper + Send>,
    pub(crate) spares: Vec<Box<dyn Keeper + Send>>,
}

impl Handle {
    /// The first keeper stands.
    pub fn make(
        _alloc: Global,
        name: Text,
        keepers: Vec<Box<dyn Keeper + Send>>,
    ) -> Result<Handle, NoMemory>
        requires { 0 < length keepers.items }
        ensures name { IfOk result (λ h. h.name ≡ name) }
        ensures keepers { IfOk result (λ h. h.standing ∷ h.spares.items ≡ keepers.items) }
    {
        let mut spares = keepers;
        let standing = spares.remove(0);
        Ok(Handle {
            name,
            standing,
            spares,
        })
    }
}

impl Handled for Handle {
    ghost use Rattle.std.specs.Prelude.{map};

    ghost name = { λ h. h.name };

    ghost keepers = { λ h. (Keeper-box h.standing).meaning h.standing.value ∷ map (λ b. (Keeper-box b).meaning b.value) h.spares.items };

    fn name(&self) -> &Text {
        &self.name
    }

    fn act(&mut self, cmd: &DbCmd) -> Result<DbAns, NoMemory> {
        match self.standing.act(cmd) {
            Ok(answer) => Ok(answer),
            Err(KeeperFault::Failed) => Ok(DbAns::Fault(self.standing.faults())),
            Err(KeeperFault::NoMemory) => Err(NoMemory),
        }
    }

    fn replace(&mut self) -> bool {
        if self.spares.is_empty() {
            return false;
        }
        self.standing = self.spares.remove(0);
        true
    }

    fn spares(&self) -> u64 {
        self.spares.len() as u64
    }
}
