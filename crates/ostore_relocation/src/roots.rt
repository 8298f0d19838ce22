//! The pointers of the page of roots.

ghost use Rattle.std.specs.Prelude.{◌≡◌, ◌<◌, ◌+◌};
ghost use Rattle.ostore_base.specs.Limits.{most_roots};
ghost use Rattle.ostore_relocation.specs.Places.{root_place, root_pointers};
ghost use Rattle.ostore_relocation.specs.Pointers.{pointer_in, with_pointers};

use crate::pointer::{Form, change_pointer};
use ostore_address_space::Space;
use ostore_base::PageImage;
use ostore_page_tags::layout::{NAME_LENGTH_IN_ROOT, POINTER_IN_ROOT, ROOT_BYTES, ROOTS_AT};
use ostore_page_tags::{get_u8, image_is_whole};

/// The most roots that a database has: the page of roots has so many rows.
pub(crate) const ROOTS: u16 = 101;

/// Where the length of root i's name stands.
pub(crate) fn name_length_place(i: u16) -> u16
    requires { i < most_roots }
    ensures { result ≡ root_place i }
{
    ROOTS_AT + NAME_LENGTH_IN_ROOT + ROOT_BYTES * i
}

/// Where the pointer of root i stands.
pub(crate) fn pointer_place(i: u16) -> u16
    requires { i < most_roots }
    ensures { result ≡ root_place i + POINTER_IN_ROOT }
{
    ROOTS_AT + ROOT_BYTES * i + POINTER_IN_ROOT
}

/// Changes the pointers of all rows that aren't free into a form.
pub(crate) fn change_roots(image: &mut PageImage, space: &Space, form: Form)
    ensures { let places = root_pointers image.old.bytes in
        image.new.bytes ≡ with_pointers (pointer_in form space.now.pages) places image.old.bytes }
{
    image_is_whole(image);
    for i in 0..ROOTS {
        if get_u8(image, name_length_place(i)) != 0 {
            change_pointer(image, pointer_place(i), space, form);
        }
    }
}
