//! A client's access to the pages of its service.

use crate::puts::{enter_page, put};
use ostore_address_space::Mapper;
use ostore_base::{PageImage, PageNo};
use ostore_client_core::{AttemptFault, Client, GraphKind};
use ostore_page_service::{PageClaims, PageService};
use ostore_page_tags::layout::{ROOT_BYTES, ROOTS_AT, ROOTS_PAGE};
use ostore_segments::{CellPages, Pages, root_row};

/// A client in an attempt, with its service: the holder of pages on which commands are executed. It stands for the lists
/// on which the attempt may have begun, each paired with what the attempt has made of it. A page that is entered comes
/// into use, and one that is edited is owned before. Only an attempt that updates may edit. After a fault the attempt
/// can only be aborted.
#[derive(Drop)]
pub struct Access<'c, 'a, M: Mapper, S> {
    pub client: &'c mut Client<'a, M>,
    pub service: &'c mut S,
    pub updates: bool,
}

impl<'c, 'a, M: Mapper, S: PageService<GraphKind>> Pages for Access<'c, 'a, M, S> {
    ghost use Rattle.std.specs.Prelude.{[], ◌∷◌};
    ghost use Rattle.ostore_client_access.specs.Accesses.{access_told, access_held, Stays};
    ghost use Rattle.ostore_client_access.specs.inside.Passing.{HasPassed, HasFailed, passed_refl, passed_then, failed_then};

    type Fault = AttemptFault;

    ghost told = { λ a. access_told a.updates (S.tells a.service.now) a.client.now
        (a.client.ghost_name ∷ a.service.ghost_name ∷ []) };

    ghost held = { λ a. access_held (S.serves a.service.now) (S.tells a.service.now) a.client.now };

    ghost passes = { λ a b. HasPassed a.updates b.updates (S.serves a.service.now)
        (S.serves b.service.now) (S.tells a.service.now) (S.tells b.service.now)
        a.client.now b.client.now };

    ghost fails = { λ a fault b. HasFailed a.updates b.updates fault (S.serves a.service.now)
        (S.serves b.service.now) (S.tells a.service.now) (S.tells b.service.now)
        a.client.now b.client.now };

    ghost stays = { Stays };

    fn enter(&mut self, page: PageNo) -> Result<(), AttemptFault> {
        match enter_page(self.client, self.service, page) {
            Ok(_) => Ok(()),
            Err(fault) => Err(fault),
        }
    }

    fn image(&self, page: PageNo) -> &PageImage {
        match self.client.image(page) {
            Some(image) => image,
            None => unreachable!(),
        }
    }

    fn edit(&mut self, page: PageNo, at: u16, bytes: &[u8]) -> Result<(), AttemptFault> {
        if bytes.is_empty() {
            return Ok(());
        }
        put(self.client, self.service, page, at, bytes)
    }

    fn edit_pointer(&mut self, page: PageNo, at: u16, pointer: u32) -> Result<(), AttemptFault> {
        put(self.client, self.service, page, at, &pointer.to_le_bytes())
    }

    fn edit_root(&mut self, i: u16, name: &[u8], pointer: u32) -> Result<(), AttemptFault> {
        let row = root_row(name, pointer);
        let at = ROOTS_AT + ROOT_BYTES * i;
        put(self.client, self.service, PageNo(ROOTS_PAGE), at, &row)
    }

    ghost passes_at_once = { λ a. passed_refl a.updates (S.serves a.service.now)
        (S.tells a.service.now) a.client.now };

    ghost passes_on = { λ a b c first second. passed_then a.updates b.updates c.updates
        (S.serves a.service.now) (S.serves b.service.now) (S.serves c.service.now)
        (S.tells a.service.now) (S.tells b.service.now) (S.tells c.service.now)
        a.client.now b.client.now c.client.now first second };

    ghost fails_later = { λ a b c fault passed failed. failed_then a.updates b.updates c.updates
        (S.serves a.service.now) (S.serves b.service.now) (S.serves c.service.now)
        (S.tells a.service.now) (S.tells b.service.now) (S.tells c.service.now)
        a.client.now b.client.now c.client.now fault passed failed };
}

impl<'c, 'a, M: Mapper, S: PageService<GraphKind>> CellPages for Access<'c, 'a, M, S> {
    fn page_at(&self, pointer: u32) -> PageNo {
        if pointer == 0 {
            return PageNo(0);
        }
        match self.client.page_at(pointer) {
            Some(page) => page,
            None => unreachable!(),
        }
    }

    fn pointer_to(&self, page: PageNo, at: u16) -> u32 {
        self.client.address_of(page) + u32::from(at)
    }

    fn edit_cell(
        &mut self,
        page: PageNo,
        offset: u16,
        at: u16,
        bytes: &[u8],
    ) -> Result<(), AttemptFault> {
        if bytes.is_empty() {
            return Ok(());
        }
        put(self.client, self.service, page, offset + at, bytes)
    }
}
