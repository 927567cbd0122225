//! What holds of boundaries, units and parts by their definitions alone. Each law is a call that does
//! nothing and whose contract is the law.

ghost use Rattle.std.specs.Prelude.{◌≡◌, ◌≢◌, ◌==◌, ◌↔◌, ℕ, ◌+◌, ◌*◌, ◌<◌, ◌≤◌, ◌&&◌, List, [], ◌∷◌, All, Contains, IsTrue, false, length, map};
ghost use Rattle.nvm_record.specs.Deeds.{is_look, is_read, is_pair, is_deallocate, IsOnRange, IsSingle};
ghost use Rattle.nvm_record.specs.Medium.{Medium, HasBlockSize};
ghost use Rattle.nvm_record.specs.Ranges.{ranges_have};
ghost use Rattle.nvm_record.specs.Status.{IsSuccess};
ghost use Rattle.nvm_record.specs.Step.{HasData, HasRangesWithin, Deed, Operation, reads, block_at, is_in_range, reaches, medium_after, statuses_of, data_of};
ghost use Rattle.nvm_record.specs.declared.lba_range.LbaRange.{LbaRange as Range};
ghost use Rattle.nvm_geometry.specs.Boundaries.{IsBoundary, SharesUnit, unit_number, units_of};
ghost use Rattle.nvm_geometry.specs.Deallocation.{EndInNamespace, deallocation, units_met_from};
ghost use Rattle.nvm_geometry.specs.Faults.{HasNoFault, IsValid, most_units};
ghost use Rattle.nvm_geometry.specs.Large.{IsLarge, region_of, regions_of, units_a_region};
ghost use Rattle.nvm_geometry.specs.Limits.{LiesInUnit};
ghost use Rattle.nvm_geometry.specs.Namespace.{Namespace};
ghost use Rattle.nvm_geometry.specs.Parts.{meets, units_met, units_of_range, data_part, part_in, piece_in, pieces_of, AreInLine, IsInUnit};
ghost use Rattle.nvm_geometry.specs.Place.{IsPlaceOf};
ghost use Rattle.nvm_geometry.specs.Turns.{IsOrderOf, medium_after_parts, EachSucceeds, data_of_part, joined_data};

use nvm_record::laws;

/// Units number the LBAs of a namespace from 0 upwards: LBA 0 lies in unit 0, the number rises by 1 at
/// each boundary and nowhere else, and each number below that of the units is some LBA's.
pub fn units_number_the_namespace()
    ensures first { (ns : Namespace) → unit_number ns 0 ≡ 0 }
    ensures at_boundary { (ns : Namespace) (lba : ℕ) → IsBoundary ns (lba + 1)
        → unit_number ns (lba + 1) ≡ unit_number ns lba + 1 }
    ensures elsewhere { (ns : Namespace) (lba : ℕ) → ¬ (IsBoundary ns (lba + 1))
        → unit_number ns (lba + 1) ≡ unit_number ns lba }
    ensures ascending { (ns : Namespace) (a b : ℕ) → a ≤ b → unit_number ns a ≤ unit_number ns b }
    ensures below { (ns : Namespace) (lba : ℕ) → lba < ns.nsze → unit_number ns lba < units_of ns }
    ensures no_gap { (ns : Namespace) (unit : ℕ) → 0 < ns.nsze → unit < units_of ns
        → (lba : ℕ) × (lba < ns.nsze) × (unit_number ns lba ≡ unit) }
{}

/// The numbers of every geometry are those to which no fault applies.
pub fn no_fault_is_valid()
    ensures valid { (ns : Namespace) → HasNoFault ns → IsValid ns }
    ensures no_fault { (ns : Namespace) → IsValid ns → HasNoFault ns }
{}

/// Two LBAs share a unit exactly where their units have one number.
pub fn sharing_is_one_number()
    ensures number { (ns : Namespace) (a b : ℕ) → SharesUnit ns a b → unit_number ns a ≡ unit_number ns b }
    ensures shares { (ns : Namespace) (a b : ℕ) → unit_number ns a ≡ unit_number ns b → SharesUnit ns a b }
{}

/// The pieces of a range are in line: the first begins where the range does, each other one where the
/// one before it ends, and the last ends where the range does. None is empty, and there is one for each
/// unit that the range meets, inside that unit.
pub fn pieces_stand_in_line()
    ensures in_line { (ns : Namespace) (first blocks : ℕ) → first + blocks ≤ ns.nsze
        → AreInLine first blocks (pieces_of ns first blocks) }
    ensures in_unit { (ns : Namespace) (first blocks : ℕ) → first + blocks ≤ ns.nsze
        → All (IsInUnit ns) (pieces_of ns first blocks) }
    ensures units { (ns : Namespace) (first blocks : ℕ)
        → map (λ p. p.unit) (pieces_of ns first blocks) ≡ units_of_range ns first blocks }
    ensures each { (ns : Namespace) (first blocks : ℕ)
        → All (λ p. p ≡ piece_in ns first blocks p.unit) (pieces_of ns first blocks) }
{}

/// Each unit has a place, and only one: the piece of the whole namespace in it.
pub fn each_unit_has_one_place()
    ensures place { (ns : Namespace) (unit : ℕ) → 0 < ns.nsze → unit < units_of ns
        → IsPlaceOf ns unit (piece_in ns 0 ns.nsze unit).first (piece_in ns 0 ns.nsze unit).blocks }
    ensures one { (ns : Namespace) (unit first blocks start count : ℕ) → IsPlaceOf ns unit first blocks
        → IsPlaceOf ns unit start count → (first ≡ start) × (blocks ≡ count) }
{}

/// An operation in the namespace meets exactly the units with an LBA that it reaches: none where it reaches none, one at
/// least where its range has a block and its ranges, where its deed has any, are some among its blocks, and no more
/// units than there are. So it leaves each block of a unit that it doesn't meet.
pub fn units_met_are_those_reached()
    ensures met { (ns : Namespace) (op : Operation) (unit : ℕ) → op.first + op.blocks ≤ ns.nsze
        → Contains (units_met ns op) unit ↔ ((lba : ℕ) × IsTrue (reaches op lba) × (unit_number ns lba ≡ unit)) }
    ensures tested { (ns : Namespace) (op : Operation) (unit : ℕ) → op.first + op.blocks ≤ ns.nsze
        → Contains (units_met ns op) unit ↔ IsTrue (meets ns op unit) }
    ensures known { (ns : Namespace) (op : Operation) (unit : ℕ) → Contains (units_met ns op) unit
        → unit < units_of ns }
    ensures few { (ns : Namespace) (op : Operation) → length (units_met ns op) ≤ units_of ns }
    ensures some { (ns : Namespace) (op : Operation) → 0 < op.blocks → op.first + op.blocks ≤ ns.nsze
        → HasRangesWithin op.first op.blocks op.deed → units_met ns op ≢ [] }
    ensures none { (ns : Namespace) (op : Operation) → ((lba : ℕ) → reaches op lba ≡ false) → units_met ns op ≡ [] }
    ensures unmet { (ns : Namespace) (op : Operation) (lba : ℕ) → op.first + op.blocks ≤ ns.nsze
        → ¬ (Contains (units_met ns op) (unit_number ns lba)) → reaches op lba ≡ false }
{}

/// Each deed but a Deallocate has to do with each LBA of its operation. So the operation meets the units of its range,
/// which are those in which its part has a block.
pub fn whole_ranges_are_reached()
    ensures reached { (op : Operation) (lba : ℕ) → IsOnRange op.deed → reaches op lba ≡ is_in_range op lba }
    ensures ranges { (first blocks : ℕ) (deed : Deed) → IsOnRange deed → HasRangesWithin first blocks deed }
    ensures units { (ns : Namespace) (op : Operation) → IsOnRange op.deed
        → units_met ns op ≡ units_of_range ns op.first op.blocks }
    ensures met { (ns : Namespace) (op : Operation) (unit : ℕ) → IsOnRange op.deed → op.first + op.blocks ≤ ns.nsze
        → Contains (units_met ns op) unit ↔ (0 < (part_in ns op unit).blocks) }
{}

/// Of the units from `from` on that an operation meets, the first is that of the lowest LBA which it reaches there, and there are none where it
/// reaches none.
pub fn the_lowest_lba_is_met_first()
    ensures first { (ns : Namespace) (op : Operation) (from lba : ℕ) → op.first + op.blocks ≤ ns.nsze → IsTrue (reaches op lba)
        → from ≤ unit_number ns lba → ((x : ℕ) → from ≤ unit_number ns x → x < lba → reaches op x ≡ false)
        → units_met_from ns op from ≡ unit_number ns lba ∷ units_met_from ns op (unit_number ns lba + 1) }
    ensures none { (ns : Namespace) (op : Operation) (from : ℕ) → op.first + op.blocks ≤ ns.nsze
        → ((x : ℕ) → from ≤ unit_number ns x → reaches op x ≡ false) → units_met_from ns op from ≡ [] }
{}

/// A Deallocate of ranges in the namespace meets exactly the units in which one of them has an LBA. From unit 0 on these
/// are all that it meets.
pub fn ranges_meet_their_units()
    ensures met { (ns : Namespace) (ranges : List Range) (unit : ℕ) → EndInNamespace ns ranges
        → Contains (units_met ns (deallocation ns ranges)) unit
        ↔ ((lba : ℕ) × IsTrue (ranges_have ranges lba) × (unit_number ns lba ≡ unit)) }
    ensures all { (ns : Namespace) (op : Operation) → units_met_from ns op 0 ≡ units_met ns op }
{}

/// The part of an operation in a unit that it meets has a block, lies in the unit's place, and has ranges that lie among
/// its own blocks, where its deed has any. Each part has the data of its own blocks.
pub fn parts_lie_in_their_units()
    ensures some { (ns : Namespace) (op : Operation) (unit : ℕ) → op.first + op.blocks ≤ ns.nsze
        → Contains (units_met ns op) unit → 0 < (part_in ns op unit).blocks }
    ensures lies { (ns : Namespace) (op : Operation) (unit first blocks : ℕ) → op.first + op.blocks ≤ ns.nsze
        → IsPlaceOf ns unit first blocks → Contains (units_met ns op) unit
        → (first ≤ (part_in ns op unit).first)
        × ((part_in ns op unit).first + (part_in ns op unit).blocks ≤ first + blocks) }
    ensures ranges { (ns : Namespace) (op : Operation) (unit : ℕ) → op.first + op.blocks ≤ ns.nsze
        → Contains (units_met ns op) unit
        → HasRangesWithin (part_in ns op unit).first (part_in ns op unit).blocks (part_in ns op unit).deed }
    ensures payload { (ns : Namespace) (op : Operation) (unit : ℕ) → HasData (op.blocks * ns.block_size) op.deed
        → HasData ((part_in ns op unit).blocks * ns.block_size) (part_in ns op unit).deed }
{
    laws::cut_ranges_lie_within();
}

/// The part of an operation in a unit has exactly those LBAs of its range that lie in the unit, and reaches exactly those of
/// them that the operation reaches. The block of data at each of its LBAs is the operation's.
pub fn part_has_its_blocks()
    ensures lbas { (ns : Namespace) (op : Operation) (unit lba : ℕ)
        → is_in_range (part_in ns op unit) lba ≡ (is_in_range op lba && unit_number ns lba == unit) }
    ensures reached { (ns : Namespace) (op : Operation) (unit lba : ℕ)
        → reaches (part_in ns op unit) lba ≡ (reaches op lba && unit_number ns lba == unit) }
    ensures payload { (size skipped blocks i : ℕ) (payload : List ℕ) → i < blocks
        → block_at size (data_part size skipped blocks payload) i ≡ block_at size payload (skipped + i) }
{
    laws::cut_ranges_lie_within();
}

/// A part is of its operation's kind: a look of a look, a Read of a Read, a pair of a pair, a Deallocate of a
/// Deallocate.
pub fn parts_keep_their_kind()
    ensures look { (ns : Namespace) (op : Operation) (unit : ℕ) → is_look (part_in ns op unit).deed ≡ is_look op.deed }
    ensures read { (ns : Namespace) (op : Operation) (unit : ℕ) → is_read (part_in ns op unit).deed ≡ is_read op.deed }
    ensures pair { (ns : Namespace) (op : Operation) (unit : ℕ) → is_pair (part_in ns op unit).deed ≡ is_pair op.deed }
    ensures deallocate { (ns : Namespace) (op : Operation) (unit : ℕ)
        → is_deallocate (part_in ns op unit).deed ≡ is_deallocate op.deed }
{}

/// Where all LBAs that an operation reaches lie in one unit, and it reaches one, it has one part. So it has where its
/// range lies in one unit, and its ranges, where its deed has any, are some among its blocks: the part is the operation
/// itself.
pub fn one_unit_is_one_part()
    ensures reached { (ns : Namespace) (op : Operation) (unit lba : ℕ) → op.first + op.blocks ≤ ns.nsze
        → IsTrue (reaches op lba) → ((x : ℕ) → IsTrue (reaches op x) → unit_number ns x ≡ unit)
        → units_met ns op ≡ unit ∷ [] }
    ensures unit { (ns : Namespace) (op : Operation) → 0 < op.blocks → op.first + op.blocks ≤ ns.nsze
        → LiesInUnit ns op.first op.blocks → HasRangesWithin op.first op.blocks op.deed
        → units_met ns op ≡ unit_number ns op.first ∷ [] }
    ensures part { (ns : Namespace) (op : Operation) → 0 < op.blocks → op.first + op.blocks ≤ ns.nsze
        → LiesInUnit ns op.first op.blocks → HasData (op.blocks * ns.block_size) op.deed
        → HasRangesWithin op.first op.blocks op.deed → part_in ns op (unit_number ns op.first) ≡ op }
{
    laws::cut_ranges_lie_within();
}

/// The parts of a command, done one after the other in any order of the units that it meets, are the
/// command: they leave the same medium, all succeed exactly where it does, and the data that they
/// answer, joined by ascending LBAs, is what it answers.
pub fn parts_are_the_whole()
    ensures medium { (ns : Namespace) (op : Operation) (units : List ℕ) (m : Medium) → IsSingle op.deed
        → op.first + op.blocks ≤ ns.nsze → IsOrderOf ns op units
        → (lba : ℕ) → medium_after_parts ns op units m lba ≡ medium_after ns.block_size op m lba }
    ensures success { (ns : Namespace) (op : Operation) (units : List ℕ) (m : Medium) → IsSingle op.deed
        → op.first + op.blocks ≤ ns.nsze → IsOrderOf ns op units → HasData (op.blocks * ns.block_size) op.deed → HasBlockSize ns.block_size m
        → EachSucceeds ns op units m ↔ IsSuccess (statuses_of op m) }
    ensures data { (ns : Namespace) (op : Operation) (units : List ℕ) (m : Medium) → op.deed ≡ reads
        → op.first + op.blocks ≤ ns.nsze → IsOrderOf ns op units
        → joined_data (data_of_part ns op units m) (units_met ns op) ≡ data_of op m }
{
    laws::cut_ranges_lie_within();
}

/// A large namespace is kept as few regions, each of whole units: the number of an LBA's region is that of its unit, divided by how many units a
/// region has. So what lies in one unit lies in one region. A region has a unit at least.
pub fn regions_have_whole_units()
    ensures number { (ns : Namespace) (lba : ℕ) → IsLarge ns
        → unit_number (regions_of ns) lba ≡ region_of ns (unit_number ns lba) }
    ensures inside { (ns : Namespace) (slba blocks : ℕ) → IsLarge ns → LiesInUnit ns slba blocks
        → LiesInUnit (regions_of ns) slba blocks }
    ensures covers { (ns : Namespace) (unit first blocks start count : ℕ) → IsLarge ns → IsPlaceOf ns unit first blocks
        → IsPlaceOf (regions_of ns) (region_of ns unit) start count → (start ≤ first) × (first + blocks ≤ start + count) }
    ensures some { (ns : Namespace) → IsLarge ns → 0 < units_a_region ns }
{}

/// Where a namespace has no more units than there can be regions, each unit is a region.
pub fn few_units_are_regions()
    ensures unit { (ns : Namespace) (unit : ℕ) → 0 < ns.nsze → units_of ns ≤ most_units → region_of ns unit ≡ unit }
    ensures same { (ns : Namespace) → 0 < ns.nsze → units_of ns ≤ most_units → regions_of ns ≡ ns }
{}
