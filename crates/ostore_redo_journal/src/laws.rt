//! Laws of the journal on disk, each the contract of a function that does nothing. A caller who needs a
//! law calls its function.

ghost use Rattle.std.specs.Prelude.{◌≡◌, ℕ, ◌+◌, ◌*◌, ◌<◌, ◌≤◌, ◌^◌, ◌++◌, ◌∷◌, [], List, length, get_or, take, drop};
ghost use Rattle.ostore_base.specs.declared.page.PageImage.{PageImage};
ghost use Rattle.ostore_redo_journal.specs.declared.layout.TheConstants.{GENERATION_IN_HEAD, NUMBER_IN_HEAD, COUNT_IN_HEAD};
ghost use Rattle.ostore_redo_journal.specs.Records.{Logged, IsLawful, behind_gate, record_in, behind_size, u16_at, u32_at, u64_at};
ghost use Rattle.ostore_redo_journal.specs.Headers.{HasHeader, IsNotDatabase, IsNewer, IsBadBase, journal_at, front_of};
ghost use Rattle.ostore_redo_journal.specs.OnDisk.{ReadsAs, HasRecords, IsEnd, IsBad};
ghost use Rattle.ostore_redo_journal.specs.Last.{IsLast, newest, image_of, or_else};
ghost use Rattle.ostore_redo_journal.specs.declared.header.Header.{Header};
ghost use Rattle.ostore_redo_journal.specs.declared.header.Scan.{Scan};

/// What is written of a record is read as that record.
pub fn written_is_read()
    ensures { (pages generation number : ℕ) (r : Logged) → pages ≤ 2 ^ 32 → IsLawful pages r
        → record_in (behind_gate generation number r) ≡ r }
{}

/// What is read of a record is written so.
pub fn read_is_written()
    ensures { (generation number : ℕ) (bytes : List ℕ) → ((i : ℕ) → get_or bytes i 0 < 256)
        → length bytes ≡ behind_size (u16_at bytes COUNT_IN_HEAD)
        → u32_at bytes GENERATION_IN_HEAD ≡ generation → u64_at bytes NUMBER_IN_HEAD ≡ number
        → behind_gate generation number (record_in bytes) ≡ bytes }
{}

/// Bytes read as one header and one list of records at most.
pub fn reads_are_unique()
    ensures { (bytes : List ℕ) (h k : Header) (rs ss : List Logged) → h.generation < 2 ^ 32
        → ReadsAs bytes h rs → ReadsAs bytes k ss → (h ≡ k) × (rs ≡ ss) }
{}

/// Where a header and records were read, and the journal ends behind them, the bytes read as these.
pub fn scanned_is_read()
    ensures { (held : List ℕ) (h : Header) (scan : Scan) → HasHeader (front_of held) h
        → journal_at h < length held → HasRecords held h scan
        → IsEnd h scan.records (drop scan.end held)
        → (rs : List Logged) × ReadsAs held h rs × (scan.records ≡ length rs) }
{}

/// Where what stands behind the records is bad, the bytes read as nothing with this header.
pub fn bad_is_refused()
    ensures { (held : List ℕ) (h : Header) (scan : Scan) (rs : List Logged) → h.generation < 2 ^ 32
        → journal_at h < length held → HasRecords held h scan
        → IsBad h scan.records (drop scan.end held) → ReadsAs held h rs → ⊥ }
{}

/// Bytes that read as something have no header that is refused.
pub fn read_is_not_refused()
    ensures { (held : List ℕ) (h : Header) (rs : List Logged) → ReadsAs held h rs
        → (IsNotDatabase (front_of held) (length held) → ⊥)
        × (IsNewer (front_of held) (length held) → ⊥)
        × ((at : ℕ) → IsBadBase (front_of held) (length held) at → ⊥) }
{}

/// There is one last list at most.
pub fn last_is_unique()
    ensures { (first a b : List PageImage) (rs : List Logged)
        → IsLast first rs a → IsLast first rs b → a ≡ b }
{}

/// One record more: each page has its image in that record, else the one that it had.
pub fn newest_of_one_more()
    ensures { (page : ℕ) (rs : List Logged) (r : Logged)
        → newest page (rs ++ r ∷ []) ≡ or_else (image_of page r.pages) (newest page rs) }
{}
