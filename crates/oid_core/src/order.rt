//! The order of names, over slices.
ghost use Rattle.std.specs.Prelude.{◌≡◌, ◌↔◌, IsTrue};
ghost use Rattle.oid_core.specs.Order.{IsBefore, IsPrefix, is_prefix, name_eq, name_lt};

/// Whether the first list begins the second, or is that list.
pub fn begins(prefix: &[u32], name: &[u32]) -> bool
    ensures value { IsTrue result ↔ IsPrefix prefix.now name.now }
    ensures test { result ≡ is_prefix prefix.now name.now }
{
    name.starts_with(prefix)
}

/// Whether the first list is before the second: by the first number that differs, or because it
/// begins a longer one.
pub fn precedes(a: &[u32], b: &[u32]) -> bool
    ensures value { IsTrue result ↔ IsBefore a.now b.now }
    ensures test { result ≡ name_lt a.now b.now }
{
    a.cmp(&b).is_lt()
}

/// Whether two lists are equal.
pub fn same_name(a: &[u32], b: &[u32]) -> bool
    ensures value { IsTrue result ↔ (a.now ≡ b.now) }
    ensures test { result ≡ name_eq a.now b.now }
{
    a == b
}
