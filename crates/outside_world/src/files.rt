// Files by name.
ghost use Rattle.std.specs.Prelude.{◌≡◌, ◌<◌, ◌≤◌, ℕ, List, Option, None, length, IfOk, IsErrOf};
ghost use Rattle.outside_world.specs.Told.{Rose, Contents, HoldsFile, LacksFile, HoldsLongFile};
ghost use Rattle.outside_world.specs.FaultPlan.{FaultPlan, FailsAsPlanned, plan_after};

use sml_syntax::Text;

/// Why a file's text wasn't given.
#[derive(Clone, Copy, Debug, PartialEq, Eq)]
pub enum FileRefusal {
    /// The file has more bytes than were asked for.
    Long,
    /// There is no such file. Files that don't tell what they hold answer `Failed` in its place.
    Absent,
    Failed,
    NoMemory,
}

/// Files that are read by their names.
pub trait Files {
    /// The text under each name, where they tell it.
    ghost contents: { Self → Contents };

    /// How many reads failed.
    ghost file_count: { Self → ℕ };

    /// Which reads fail, where they tell that.
    ghost file_plan: { Self → Option FaultPlan } = { λ _. None };

    /// The type of `kept`: `Unit {0}` for an object that owns all that it has.
    ghost Kept: { Type 0 };

    /// What no call changes: the references of a borrowed object.
    ghost kept: { Self → Kept };

    /// The whole text of a file of at most `most` bytes.
    fn read_file(&mut self, name: &Text, most: u64) -> Result<Text, FileRefusal>
        ensures contents { contents self.new ≡ contents self.old }
        ensures within { IfOk result (λ t. length t ≤ most) }
        ensures ok { IfOk result (λ t. HoldsFile (contents self.old) name.now t) }
        ensures long { IsErrOf result FileRefusal.Long → HoldsLongFile (contents self.old) name.now most }
        ensures absent { IsErrOf result FileRefusal.Absent → LacksFile (contents self.old) name.now }

        // A file that isn't there is no fault.
        ensures absent_count { IsErrOf result FileRefusal.Absent → file_count self.new ≡ file_count self.old }
        ensures failed { IsErrOf result FileRefusal.Failed → Rose (file_count self.old) (file_count self.new) }
        ensures count { file_count self.old ≤ file_count self.new }
        ensures planned { FailsAsPlanned (file_plan self.old) (IsErrOf result FileRefusal.Failed) }
        ensures plan { file_plan self.new ≡ plan_after (file_plan self.old) }
        ensures keeps { kept self.new ≡ kept self.old };

    /// How many reads failed.
    fn file_faults(&self) -> u64
        ensures { result ≡ file_count self.now };
}
