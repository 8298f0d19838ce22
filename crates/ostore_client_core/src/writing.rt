//! Writing what an attempt owns into a record.

ghost use Rattle.std.specs.Prelude.{◌≡◌, ◌<◌, ◌≤◌, ◌++◌, [], nat_eq, length, option_copied};
ghost use Rattle.std.specs.List.{AllPairs};
ghost use Rattle.std.specs.Map.{lookup};
ghost use Rattle.ostore_schema_layout.specs.Lawful.{IsLawful};
ghost use Rattle.ostore_redo_journal.specs.Drafts.{IsAbove};
ghost use Rattle.ostore_client_cache.specs.Releases.{numbers_of};
ghost use Rattle.ostore_client_core.specs.inside.Writing.{AreFitOwned, all_writes, owned_image, page_writes};

use ostore_address_space::Space;
use ostore_base::{PageImage, PageNo};
use ostore_client_cache::Cache;
use ostore_redo_journal::Record;
use ostore_relocation::relocate_out;
use ostore_schema_layout::Schema;

/// The image of a page that is owned, and None exactly where it isn't owned.
#[tactic(auto, using(crate::proofs::WriteLaws::owner_used, crate::proofs::WriteLaws::not_owner))]
fn owned_image(cache: &Cache, page: PageNo) -> Option<&PageImage>
    ensures { option_copied result ≡ owned_image (lookup (nat_eq page.0) cache.now.pages) }
{
    if !cache.is_owned(page) {
        return None;
    }
    cache.image(page)
}

/// Adds a page to a record, in its stored form, where it is owned.
fn write_page(rec: &mut Record, cache: &Cache, page: PageNo, schema: &Schema, space: &Space)
    requires lawful { IsLawful schema.now }
    requires fit { AreFitOwned schema.now cache.now.pages }
    requires room { length rec.old.pages < rec.old.room }
    requires above { IsAbove rec.old.pages page.0 }
    ensures pages { let writes = page_writes space.now.pages schema.now cache.now.pages page in
        rec.new.pages ≡ rec.old.pages ++ writes }
    ensures same { rec.new ≡ record rec.old { pages = rec.new.pages } }
{
    let Some(image) = owned_image(cache, page) else {
        return;
    };
    let mut stored = *image;
    relocate_out(&mut stored, page, schema, space);
    rec.add(page, &stored);
}

/// Adds those of some pages that are owned to a record, in their stored forms. The pages ascend.
pub(crate) fn write_owned(
    rec: &mut Record,
    cache: &Cache,
    pages: &[PageNo],
    schema: &Schema,
    space: &Space,
)
    requires lawful { IsLawful schema.now }
    requires fit { AreFitOwned schema.now cache.now.pages }
    requires ascending { AllPairs (λ page later. page < later) (numbers_of pages.now) }
    requires room { length pages.now ≤ rec.old.room }
    requires none { rec.old.pages ≡ [] }
    ensures pages { rec.new.pages
        ≡ all_writes space.now.pages schema.now cache.now.pages pages.now }
    ensures same { rec.new ≡ record rec.old { pages = rec.new.pages } }
{
    for page in pages {
        write_page(rec, cache, *page, schema, space);
    }
}
