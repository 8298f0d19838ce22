//! Pages that are brought into use, owned, and written.

ghost use Rattle.std.specs.Prelude.{◌≡◌, ◌<◌, ◌≤◌, ◌+◌, true, false, length, IfOk, IfErr, OnOk};
ghost use Rattle.ostore_base.specs.declared.page.TheConstants.{PAGE_SIZE};
ghost use Rattle.ostore_client_cache.specs.Entries.{is_owned};
ghost use Rattle.ostore_client_core.specs.Clients.{entry_of, is_page_used};
ghost use Rattle.ostore_client_core.specs.Attempts.{Attempts, Narrows};
ghost use Rattle.ostore_client_core.specs.Calls.{BringsPage, OwnsNoMore, SameClient, IsAddressOf};
ghost use Rattle.ostore_client_access.specs.Accesses.{Passes, Fails, Stays};
ghost use Rattle.ostore_client_access.specs.inside.Puts.{AreAsBefore, OwnsOne, PutsInto};

use ostore_address_space::Mapper;
use ostore_base::PageNo;
use ostore_client_core::{AttemptFault, Client, GraphKind};
use ostore_page_service::{PageClaims, PageService};

/// Brings a page into use, and answers its frame's first address. It owns none.
pub(crate) fn enter_page<M: Mapper, S: PageService<GraphKind>>(
    client: &mut Client<'_, M>,
    service: &mut S,
    page: PageNo,
) -> Result<u32, AttemptFault>
    requires runs { Attempts (S.serves service.old) (S.tells service.old) client.old }
    requires known { page.0 < length (S.tells service.old).opened }
    ensures narrows { OnOk result (Narrows (S.serves service.old) (S.serves service.new)
        (S.tells service.old) (S.tells service.new) client.old client.new) }
    ensures used { OnOk result (is_page_used client.new page.0) }
    ensures brings { OnOk result (BringsPage client.old client.new page.0) }
    ensures owns { OnOk result (OwnsNoMore client.old client.new) }
    ensures address { IfOk result (IsAddressOf client.new page.0) }
    ensures passes { OnOk result (Passes false (S.serves service.old) (S.serves service.new)
        (S.tells service.old) (S.tells service.new) client.old client.new) }
    ensures fails { IfErr result (λ fault. Fails false fault (S.serves service.old)
        (S.serves service.new) (S.tells service.old) (S.tells service.new) client.old client.new) }
    ensures stays { IfErr result (λ fault. Stays fault
        → AreAsBefore (S.tells service.old) (S.tells service.new) client.old client.new) }
    ensures client { SameClient client.old client.new }
    ensures writer { (S.tells service.new).may_write ≡ (S.tells service.old).may_write }
{
    client.enter(service, page)
}

/// Brings a page into use, makes the attempt its owner and that of no other page, and answers its frame's first
/// address.
pub(crate) fn own_page<M: Mapper, S: PageService<GraphKind>>(
    client: &mut Client<'_, M>,
    service: &mut S,
    page: PageNo,
) -> Result<u32, AttemptFault>
    requires runs { Attempts (S.serves service.old) (S.tells service.old) client.old }
    requires known { page.0 < length (S.tells service.old).opened }
    requires writer { (S.tells service.old).may_write ≡ true }
    ensures narrows { OnOk result (Narrows (S.serves service.old) (S.serves service.new)
        (S.tells service.old) (S.tells service.new) client.old client.new) }
    ensures owned { OnOk result (is_owned (entry_of client.new page.0) ≡ true) }
    ensures brings { OnOk result (BringsPage client.old client.new page.0) }
    ensures owns { OnOk result (OwnsOne client.old client.new page.0) }
    ensures address { IfOk result (IsAddressOf client.new page.0) }
    ensures passes { OnOk result (Passes true (S.serves service.old) (S.serves service.new)
        (S.tells service.old) (S.tells service.new) client.old client.new) }
    ensures fails { IfErr result (λ fault. Fails true fault (S.serves service.old)
        (S.serves service.new) (S.tells service.old) (S.tells service.new) client.old client.new) }
    ensures stays { IfErr result (λ fault. Stays fault
        → AreAsBefore (S.tells service.old) (S.tells service.new) client.old client.new) }
    ensures client { SameClient client.old client.new }
    ensures writer { (S.tells service.new).may_write ≡ (S.tells service.old).may_write }
{
    let address = match enter_page(client, service, page) {
        Ok(address) => address,
        Err(fault) => return Err(fault),
    };
    match client.own(service, address) {
        Ok(()) => Ok(address),
        Err(fault) => Err(fault),
    }
}

/// Puts bytes into a page, which comes into use and is owned before.
pub(crate) fn put<M: Mapper, S: PageService<GraphKind>>(
    client: &mut Client<'_, M>,
    service: &mut S,
    page: PageNo,
    at: u16,
    bytes: &[u8],
) -> Result<(), AttemptFault>
    requires runs { Attempts (S.serves service.old) (S.tells service.old) client.old }
    requires known { page.0 < length (S.tells service.old).opened }
    requires writer { (S.tells service.old).may_write ≡ true }
    requires some { at < PAGE_SIZE }
    requires within { at + length bytes.now ≤ PAGE_SIZE }
    ensures puts { OnOk result (PutsInto (S.serves service.old) (S.serves service.new)
        (S.tells service.old) (S.tells service.new) client.old client.new page.0 at bytes.now) }
    ensures passes { OnOk result (Passes true (S.serves service.old) (S.serves service.new)
        (S.tells service.old) (S.tells service.new) client.old client.new) }
    ensures fails { IfErr result (λ fault. Fails true fault (S.serves service.old)
        (S.serves service.new) (S.tells service.old) (S.tells service.new) client.old client.new) }
    ensures stays { IfErr result (λ fault. Stays fault
        → AreAsBefore (S.tells service.old) (S.tells service.new) client.old client.new) }
    ensures client { SameClient client.old client.new }
    ensures writer { (S.tells service.new).may_write ≡ (S.tells service.old).may_write }
{
    let address = match own_page(client, service, page) {
        Ok(address) => address,
        Err(fault) => return Err(fault),
    };
    client.store(address + u32::from(at), bytes);
    Ok(())
}
