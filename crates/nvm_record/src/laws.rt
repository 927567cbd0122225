//! Laws of this crate's definitions, for the crates above. Each function does nothing: its contract
//! is the law, which a caller then knows.
ghost use Rattle.std.specs.Prelude.{◌≡◌, ◌≢◌, ◌⊎◌, ◌↔◌, ◌&&◌, [], ℕ, ◌+◌, ◌*◌, ◌^◌, ◌++◌, ◌<◌, ◌≤◌, List, length, nat_le, nat_lt, slice_index_or, Some, Bool, IsTrue, false, true};
ghost use Rattle.std.specs.List.{All};
ghost use Rattle.nvm_record.specs.Deeds.{IsLook, IsFailedPair, success_of};
ghost use Rattle.nvm_record.specs.Entry.{BeginsWith, HasFieldsInRange, IsWhole, spelling_of};
ghost use Rattle.nvm_record.specs.Medium.{Medium, HasBlockSize, zero_medium};
ghost use Rattle.nvm_record.specs.Op.{op_of, IsProperOp};
ghost use Rattle.nvm_record.specs.Ranges.{AreRangesWithin, FitsItsBytes, cut_ranges, data_of_ranges, range_at, range_count, range_length, ranges_have, ranges_of};
ghost use Rattle.nvm_record.specs.Status as status;
ghost use Rattle.nvm_record.specs.Status.{IsSuccess};
ghost use Rattle.nvm_record.specs.Step.{HasData, Operation, AgreeOn, is_in_range, reaches, compares_equal, data_on, medium_after, reads, statuses_of, data_of};
ghost use Rattle.nvm_record.specs.declared.block.Block.{Block};
ghost use Rattle.nvm_record.specs.declared.command.Command.{Command as Spelled};
ghost use Rattle.nvm_record.specs.declared.lba_range.LbaRange.{LbaRange as Range};
ghost use Rattle.nvm_record.specs.declared.status.TheConstants.Status as named;

/// What an opcode asks for is proper: an `Other` only where the opcode has no name of its own.
pub fn opcodes_are_proper()
    ensures { (opcode : ℕ) (deallocate : Bool) → IsProperOp (op_of opcode deallocate) }
{}

/// A command is read in one way: where bytes begin with a spelling of a command and then the rest, they
/// begin with that of no other, and no other rest follows. What is written of a whole command reads as it.
pub fn commands_are_read_one_way()
    ensures one { (size : ℕ) (bytes : List ℕ) (c d : Spelled) (rest after : List ℕ) → BeginsWith size bytes c rest
        → BeginsWith size bytes d after → (c ≡ d) × (rest ≡ after) }
    ensures again { (size : ℕ) (c : Spelled) (rest : List ℕ) → HasFieldsInRange c → IsWhole size c
        → BeginsWith size (spelling_of c ++ rest) c rest }
{}

/// Each constant of [`Status`](crate::Status) has the type and the code that its name has in the standard.
pub fn statuses_have_their_codes()
    ensures success { named.SUCCESSFUL_COMPLETION ≡ status.successful_completion }
    ensures opcode { named.INVALID_COMMAND_OPCODE ≡ status.invalid_command_opcode }
    ensures field { named.INVALID_FIELD_IN_COMMAND ≡ status.invalid_field_in_command }
    ensures internal { named.INTERNAL_ERROR ≡ status.internal_error }
    ensures failed_fused { named.ABORTED_DUE_TO_FAILED_FUSED_COMMAND ≡ status.aborted_due_to_failed_fused_command }
    ensures missing_fused { named.ABORTED_DUE_TO_MISSING_FUSED_COMMAND ≡ status.aborted_due_to_missing_fused_command }
    ensures namespace { named.INVALID_NAMESPACE_OR_FORMAT ≡ status.invalid_namespace_or_format }
    ensures exceeded { named.ATOMIC_WRITE_UNIT_EXCEEDED ≡ status.atomic_write_unit_exceeded }
    ensures range { named.LBA_OUT_OF_RANGE ≡ status.lba_out_of_range }
    ensures marked { named.UNRECOVERED_READ_ERROR ≡ status.unrecovered_read_error }
    ensures differs { named.COMPARE_FAILURE ≡ status.compare_failure }
{}

/// Media keep their block size. The medium of zero bytes has it, a step whose data has exactly its range's
/// blocks keeps it, and what a Read answers has exactly as many bytes as its blocks.
pub fn steps_keep_block_sizes()
    ensures begun { (size : ℕ) → HasBlockSize size (zero_medium size) }
    ensures step { (size : ℕ) (op : Operation) (m : Medium) → HasData (op.blocks * size) op.deed
        → HasBlockSize size m → HasBlockSize size (medium_after size op m) }
    ensures payload { (size : ℕ) (op : Operation) (m : Medium) (payload : List ℕ) → HasBlockSize size m
        → data_of op m ≡ Some payload → length payload ≡ op.blocks * size }
{}

/// A step sees and changes its range alone. Outside it each block stays, and so does each that it doesn't reach: a
/// Deallocate reaches no LBA but those in its ranges. Two media that agree on the range give the same statuses and
/// the same data, and agree afterwards wherever they did.
pub fn steps_are_local()
    ensures range { (op : Operation) (lba : ℕ)
        → IsTrue (is_in_range op lba) ↔ ((op.first ≤ lba) × (lba < op.first + op.blocks)) }
    ensures outside { (size : ℕ) (op : Operation) (m : Medium) (lba : ℕ) → is_in_range op lba ≡ false
        → medium_after size op m lba ≡ m lba }
    ensures unreached { (size : ℕ) (op : Operation) (m : Medium) (lba : ℕ) → reaches op lba ≡ false
        → medium_after size op m lba ≡ m lba }
    ensures statuses { (op : Operation) (m n : Medium) → AgreeOn op m n → statuses_of op m ≡ statuses_of op n }
    ensures payload { (op : Operation) (m n : Medium) → AgreeOn op m n → data_of op m ≡ data_of op n }
    ensures blocks { (size : ℕ) (op : Operation) (m n : Medium) (lba : ℕ) → AgreeOn op m n → m lba ≡ n lba
        → medium_after size op m lba ≡ medium_after size op n lba }
{}

/// A look leaves the medium as it is, and so does a fused pair that fails.
pub fn looks_change_nothing()
    ensures { (size : ℕ) (op : Operation) (m : Medium) (lba : ℕ) → IsLook op.deed ⊎ IsFailedPair op m
        → medium_after size op m lba ≡ m lba }
{}

/// Success is reported in one way: 0/00 for each command.
pub fn success_is_told_alike()
    ensures { (op : Operation) (m : Medium) → IsSuccess (statuses_of op m) → statuses_of op m ≡ success_of op.deed }
{}

/// A Read is answered these bytes exactly where a Compare with them holds.
pub fn reading_is_comparing()
    ensures { (blocks : List Block) (bytes : List ℕ)
        → (data_on blocks reads ≡ Some bytes) ↔ (compares_equal blocks bytes ≡ true) }
{}

/// Data holds one range for each 16 bytes, each at its place. The data of ranges is read as exactly these, where their
/// fields have 64 and 32 bits, as those have that are read of bytes.
pub fn ranges_are_read_back()
    ensures again { (rs : List Range) → All FitsItsBytes rs → ranges_of (data_of_ranges rs) ≡ rs }
    ensures bytes { (rs : List Range) → length (data_of_ranges rs) ≡ length rs * range_length }
    ensures count { (payload : List ℕ) → length (ranges_of payload) ≡ range_count payload }
    ensures place { (payload : List ℕ) (i : ℕ) (d : Range) → i < range_count payload
        → slice_index_or (ranges_of payload) i d ≡ range_at payload i }
    ensures fit { (payload : List ℕ) → All (λ b. b < 256) payload → All FitsItsBytes (ranges_of payload) }
{}

/// Ranges that are cut to LBAs have those of these LBAs that they had before, and no other. What is left lies among
/// the LBAs, in fields of 64 and 32 bits as before, and there is something exactly where some range has one of them.
/// Ranges that lie among the LBAs stay as they are, and a cut within a cut is one cut.
pub fn cut_ranges_lie_within()
    ensures has { (first blocks : ℕ) (rs : List Range) (lba : ℕ)
        → ranges_have (cut_ranges first blocks rs) lba
        ≡ ((nat_le first lba && nat_lt lba (first + blocks)) && ranges_have rs lba) }
    ensures within { (first blocks : ℕ) (rs : List Range) → cut_ranges first blocks rs ≢ []
        → AreRangesWithin first blocks (cut_ranges first blocks rs) }
    ensures met { (first blocks : ℕ) (rs : List Range) → (cut_ranges first blocks rs ≢ [])
        ↔ ((lba : ℕ) × (first ≤ lba) × (lba < first + blocks) × (ranges_have rs lba ≡ true)) }
    ensures few { (first blocks : ℕ) (rs : List Range) → length (cut_ranges first blocks rs) ≤ length rs }
    ensures fit { (first blocks : ℕ) (rs : List Range) → first < 2 ^ 64 → All FitsItsBytes rs
        → All FitsItsBytes (cut_ranges first blocks rs) }
    ensures itself { (first blocks : ℕ) (rs : List Range) → AreRangesWithin first blocks rs
        → cut_ranges first blocks rs ≡ rs }
    ensures inner { (first blocks low n : ℕ) (rs : List Range) → first ≤ low → low + n ≤ first + blocks
        → cut_ranges low n (cut_ranges first blocks rs) ≡ cut_ranges low n rs }
    ensures outer { (first blocks low n : ℕ) (rs : List Range) → low ≤ first → first + blocks ≤ low + n
        → cut_ranges low n (cut_ranges first blocks rs) ≡ cut_ranges first blocks rs }
{}
