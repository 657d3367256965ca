//! Laws of the texts of settings. Each function does nothing: its contract is the law.
ghost use Rattle.std.specs.Prelude.{◌≡◌, ◌≤◌, ℕ, List, true, Ok, length, map};
ghost use Rattle.toml.specs.Data.{members_depth};
ghost use Rattle.frame_core.specs.declared.mac.Mac.{Mac};
ghost use Rattle.setphase_core.specs.Together.{timers_agree as timers_agree_in};
ghost use Rattle.setphase_core.specs.declared.world.World.{World};
ghost use Rattle.settings_text.specs.Settings.{Kept, CanHave, timers_agree};
ghost use Rattle.settings_text.specs.Writing.{settings_members, port_data, changed_ports};
ghost use Rattle.settings_text.specs.Reading.{bridge_settings, read_settings};
ghost use Rattle.settings_text.specs.PortRows.{port_rows, ports_of};
ghost use Rattle.std.specs.List.{AllByRecursion};
ghost use Rattle.fdb_core.specs.Rows.{IsAddress};
ghost use Rattle.bridge_core.specs.Bridge.{BridgeState, address_of};
ghost use Rattle.rstp_settings.specs.Values.{bridge_value, port_value, IsBridgeRange, IsPortRange};
ghost use Rattle.rstp_settings.specs.declared.key.BridgeKey.{BridgeKey};
ghost use Rattle.rstp_settings.specs.declared.key.PortKey.{PortKey};
ghost use Rattle.rstp_settings.specs.declared.key.PortValues.{PortValues};

/// The timers go together as a Set wants it.
pub fn timers_are_those_of_a_set()
    ensures { (world : World) → timers_agree world.bridge.settings.bridge ≡ timers_agree_in world }
{}

/// No table of settings nests deeper than TOML's reader reads.
pub fn tables_are_flat()
    ensures { (address : Mac) (k : Kept) → members_depth (settings_members address k) ≤ 80 }
{}

/// The settings of a bridge that are written are read as exactly these.
pub fn bridge_settings_are_read_back()
    ensures { (address : Mac) (k : Kept) →
        ((key : BridgeKey) → IsBridgeRange key (bridge_value k.bridge key)) →
        timers_agree k.bridge ≡ true → bridge_settings (settings_members address k) ≡ Ok k.bridge }
{}

/// The settings of ports that are written are read as exactly these.
pub fn port_settings_are_read_back()
    ensures rows { (count : ℕ) (ports : List PortValues) → length ports ≤ count →
        AllByRecursion (λ values. (key : PortKey) → IsPortRange key (port_value values key)) ports →
        port_rows count 0 0 (map port_data (changed_ports ports)) ≡ Ok (changed_ports ports) }
    ensures ports { (ports : List PortValues) →
        ports_of (length ports) (changed_ports ports) ≡ ports }
{}

/// Settings that are written are read as exactly these, by every bridge of the address that can have them.
pub fn settings_are_read_back()
    ensures { (b : BridgeState) (k : Kept) → IsAddress (address_of b) → CanHave b k →
        read_settings b (settings_members (address_of b) k) ≡ Ok k }
{}
