//! Tables of TOML by their members.
ghost use Rattle.std.specs.Prelude.{◌≡◌, IfOk, OnOk, codes};
ghost use Rattle.toml.specs.View.{table_view, view};
ghost use Rattle.settings_text.specs.Building.{with_member, with_optional};
ghost use Rattle.settings_text.specs.Writing.{unless, address_text, number};

use frame_core::Mac;
use std::alloc::{AllocError, Global};
use toml::{Table, Value};

/// Gives a key of a table a value.
pub fn put(alloc: Global, table: &mut Table, key: &str, value: Value) -> Result<(), AllocError>
    ensures { OnOk result (table_view table.new ≡ with_member key.now (view value) (table_view table.old)) }
{
    let name = String::from_str(alloc, key)?;
    let _before = table.insert(name, value)?;
    Ok(())
}

/// Gives a word of a table a number.
pub fn put_number(alloc: Global, table: &mut Table, key: &str, value: u32) -> Result<(), AllocError>
    ensures { OnOk result (table_view table.new ≡ with_member key.now (number value) (table_view table.old)) }
{
    put(alloc, table, key, Value::from(value))
}

/// The same, unless it is that of the opening.
pub fn put_unless(
    alloc: Global,
    table: &mut Table,
    key: &str,
    opening: u32,
    value: u32,
) -> Result<(), AllocError>
    ensures { OnOk result (table_view table.new
        ≡ with_optional key.now (unless opening value) (table_view table.old)) }
{
    if value == opening {
        Ok(())
    } else {
        put_number(alloc, table, key, value)
    }
}

/// Gives `address` of a table an address, as 12 hexadecimal digits.
pub fn put_address(alloc: Global, table: &mut Table, address: Mac) -> Result<(), AllocError>
    ensures { OnOk result (table_view table.new
        ≡ with_member (codes "address") (address_text address) (table_view table.old)) }
{
    let text = hex::encode_upper(alloc, address.0)?;
    put(alloc, table, "address", Value::from(text))
}
