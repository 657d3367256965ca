//! Laws of histories.
ghost use Rattle.std.specs.Prelude.{◌≡◌, List};
ghost use Rattle.setphase_core.specs.Objects.{ObjectRow};
ghost use Rattle.setphase_core.specs.declared.world.World.{World};
ghost use Rattle.history_core.specs.declared.entry.Entry.{Entry};
ghost use Rattle.history_core.specs.History.{IsLegal, events_met};

/// The law that a base and what happened make one history: of two legal lists of entries over one
/// world and objects of the same rows, in which the same events met the same, each entry is the
/// same. It does nothing.
pub fn one_history()
    ensures { (rows : List ObjectRow) (base : World) (entries others : List Entry) →
        IsLegal rows base entries → IsLegal rows base others →
        events_met entries ≡ events_met others → entries ≡ others }
{}
