//! Reading and owning pages in use.

ghost use Rattle.std.specs.Prelude.{◌≡◌, ◌≤◌, ◌<◌, ◌+◌, ◌%◌, true, OnOk, IfErr, option_copied};
ghost use Rattle.ostore_base.specs.declared.page.TheConstants.{PAGE_SIZE};
ghost use Rattle.ostore_page_service.specs.Told.{SameRecords, StillServes, NoBusy, Touches};
ghost use Rattle.ostore_client_cache.specs.Entries.{used_image};
ghost use Rattle.ostore_client_core.specs.Clients.{entry_of, is_page_used, IsOwn};
ghost use Rattle.ostore_client_core.specs.Attempts.{Attempts, Narrows};
ghost use Rattle.ostore_client_core.specs.Retaining.{any_page, KeepsCopies};
ghost use Rattle.ostore_client_core.specs.Calls.{lent, OwnsPage, IsBusy, SameClient};

use crate::client::Client;
use crate::fault::AttemptFault;
use crate::kind::GraphKind;
use ostore_address_space::{Frame, Mapper};
use ostore_base::{PAGE_SIZE, PageImage, PageNo};
use ostore_page_service::{PageClaims, PageService};

/// The bytes of a page, by which the number of a frame is multiplied in an address.
const PAGE_BYTES: u32 = PAGE_SIZE as u32;

impl<'a, M: Mapper> Client<'a, M> {
    /// The image of a page in use, its pointers resident. None exactly where the page isn't in use.
    pub fn image(&self, page: PageNo) -> Option<&PageImage>
        ensures { option_copied result ≡ used_image (entry_of self.now page.0) }
    {
        self.cache.image(page)
    }

    /// The bytes at an address, which lie in one page. None exactly where no page in use lies there. It takes no
    /// memory.
    pub fn deref(&self, address: u32, len: usize) -> Option<&[u8]>
        requires { address % 4096 + len ≤ PAGE_SIZE }
        ensures { option_copied result ≡ lent self.now address len }
    {
        let page = self.space.page_at(Frame(address / PAGE_BYTES))?;
        let image = self.cache.image(page)?;
        let at = (address % PAGE_BYTES) as usize;
        Some(&image.bytes[at..at + len])
    }

    /// Makes the attempt the owner of a page in use. Busy leaves the client as it was.
    pub(crate) fn own_page<S: PageService<GraphKind>>(
        &mut self,
        service: &mut S,
        page: PageNo,
    ) -> Result<(), AttemptFault>
        requires runs { Attempts (S.serves service.old) (S.tells service.old) self.old }
        requires writer { (S.tells service.old).may_write ≡ true }
        requires used { is_page_used self.old page.0 }
        ensures own { IsOwn (S.serves service.new) (S.tells service.new) self.new }
        ensures narrows { OnOk result (Narrows (S.serves service.old) (S.serves service.new)
            (S.tells service.old) (S.tells service.new) self.old self.new) }
        ensures same_client { SameClient self.old self.new }
        ensures owned { OnOk result (OwnsPage self.old self.new page.0) }
        ensures refused { IfErr result (λ fault. (self.new ≡ self.old)
            × IsBusy fault (S.tells service.old) (S.tells service.new) page.0) }
        ensures same { SameRecords (S.tells service.old) (S.tells service.new) }
        ensures served { StillServes (S.serves service.old) (S.serves service.new) }
        ensures calm { OnOk result (NoBusy (S.tells service.old) (S.tells service.new)) }
        ensures touched { Touches (S.tells service.old) (S.tells service.new) page.0 }
        ensures copies { KeepsCopies any_page (S.tells service.old).mine
            (S.tells service.new).mine }
    {
        if let Err(busy) = service.claim_own(page) {
            return Err(AttemptFault::Busy(busy));
        }
        self.cache.own(page);
        Ok(())
    }
}
