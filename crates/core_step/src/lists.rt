// What stands in the lists of a state.
ghost use Rattle.std.specs.Prelude.{◌≡◌, ◌==◌, ◌<◌, true, not, filter, length, Some, slice_get, slice_set};
ghost use Rattle.std.specs.List.{list_any};
ghost use Rattle.history_core.specs.Core.{has, without, is_of, holds};

use history_core::Owner;

pub(crate) fn runs(running: &[u64], request: u64) -> bool
    ensures { result ≡ has request running.now }
{
    running.contains(&request)
}

pub(crate) fn is_free(free: &[u32], page: u32) -> bool
    ensures { result ≡ has page free.now }
{
    free.contains(&page)
}

/// Whether this page is owned by this request.
pub(crate) fn is_owned(owned: &[Owner], request: u64, page: u32) -> bool
    ensures { result ≡ list_any (is_of page request) owned.now }
{
    owned
        .iter()
        .any(|owner| owner.page == page && owner.request == request)
}

/// Whether this request owns a page.
pub(crate) fn owns_some(owned: &[Owner], request: u64) -> bool
    ensures { result ≡ list_any (λ o. o.request == request) owned.now }
{
    owned.iter().any(|owner| owner.request == request)
}

/// Whether this request holds a database.
pub(crate) fn holds_some(holders: &[Option<u64>], request: u64) -> bool
    ensures { result ≡ list_any (holds request) holders.now }
{
    holders.iter().any(|holder| is_held(*holder, request))
}

fn is_held(holder: Option<u64>, request: u64) -> bool
    ensures { result ≡ holds request holder }
{
    match holder {
        None => false,
        Some(other) => other == request,
    }
}

/// Whether the database is there and has this holder, or none.
pub(crate) fn is_held_by(holders: &[Option<u64>], database: u64, holder: Option<u64>) -> bool
    ensures yes { result ≡ true → slice_get holders.now database ≡ Some holder }
    ensures no { slice_get holders.now database ≡ Some holder → result ≡ true }
{
    let at = database as usize;
    at < holders.len() && holders[at] == holder
}

pub(crate) fn hand_on(holders: &mut Vec<Option<u64>>, database: u64, holder: Option<u64>)
    requires { database < length holders.old.items }
    ensures { holders.new.items ≡ slice_set holders.old.items database holder }
{
    holders[database as usize] = holder;
}

pub(crate) fn take_out_page(free: &mut Vec<u32>, page: u32)
    ensures { free.new.items ≡ without page free.old.items }
{
    free.retain(|other| *other != page);
}

pub(crate) fn take_out_owner(owned: &mut Vec<Owner>, request: u64, page: u32)
    ensures { owned.new.items ≡ filter (λ o. not (is_of page request o)) owned.old.items }
{
    owned.retain(|owner| !(owner.page == page && owner.request == request));
}

pub(crate) fn take_out_request(running: &mut Vec<u64>, request: u64)
    ensures { running.new.items ≡ without request running.old.items }
{
    running.retain(|other| *other != request);
}
