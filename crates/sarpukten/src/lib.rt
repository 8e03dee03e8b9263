// What C and Rust link: every call under its C name (include/sarpukten.h; `sarpukten_c` exports each). A call's answer stands in an array of
// fixed length that the caller lends, its number, place and part first; the number is also returned. The work is done behind, in the border_
// crates.
#![tactic(auto)]

ghost use Rattle.std.specs.Prelude.{◌≡◌};
ghost use Rattle.mode.specs.Mode.{value_of, kind_of, from_number};
ghost use Rattle.mode.specs.Read.{mode_alone};
ghost use Rattle.mode.specs.Write.{mode_text};
ghost use Rattle.mode.specs.Table.{written_of, word_of};
ghost use Rattle.order.specs.Order.{name_order, order_number};
ghost use Rattle.entry.specs.Decode.{step_of};
ghost use Rattle.reading.specs.Listing.{listing};
ghost use Rattle.reading.specs.Whole.{read_answer, read_records};
ghost use Rattle.strict.specs.Strict.{strict_answer, strict_records};
ghost use Rattle.lookup.specs.Halving.{most_comparisons};
ghost use Rattle.tree_write.specs.Write.{tree_size};
ghost use Rattle.header.specs.Record.{header_at};
ghost use Rattle.unfold.specs.Unfold.{unfold_answer, unfold_after};
ghost use Rattle.commit_read.specs.Read.{commit_answer, commit_parents, commit_headers};
ghost use Rattle.border.specs.Border.{answer_numbers};
ghost use Rattle.border_mode.specs.Border.{mode_numbers, mode_asked};
ghost use Rattle.border_tree.specs.Border.{step_numbers};
ghost use Rattle.lookups.specs.Many.{answers_after};
ghost use Rattle.border_lookup.specs.Border.{lookup_among, any_among, many_answered, looked_numbers};
ghost use Rattle.border_hex.specs.Border.{id_answered, id_output, hex_answered, hex_output};
ghost use Rattle.border_tree_write.specs.Border.{tree_answered, tree_output, header_answered, header_output};
ghost use Rattle.border_text.specs.Border.{export_answered, export_output, import_answered, import_output};
ghost use Rattle.border_mend.specs.Border.{mend_answered, mend_numbers, mend_fates, mend_output};
ghost use Rattle.border_commit.specs.Border.{commit_numbers};
ghost use Rattle.border_commit_write.specs.Border.{size_said, answer_said, output_said};
ghost use Rattle.bundle.specs.Bundle.{check_of};
ghost use Rattle.path.specs.Path.{follow};
ghost use Rattle.border_bundle.specs.Border.{object_asked, checked_numbers, object_numbers};
ghost use Rattle.border_path.specs.Border.{followed_numbers};
ghost use Rattle.border_difference.specs.Border.{compare_answered, compare_items, compare_paths};
ghost use Rattle.edit_walk.specs.Walk.{new_entry};
ghost use Rattle.edit.specs.Edit.{put_output, remove_output};
ghost use Rattle.border_edit.specs.Border.{put_answered, remove_answered};
ghost use Rattle.arriving.specs.Feed.{start_of};
ghost use Rattle.piece_state.specs.State.{marks_numbers};
ghost use Rattle.border_check.specs.End.{end_said};
ghost use Rattle.border_pieces.specs.Border.{fed_of, fed_numbers};

// A mode text that stands alone.
pub fn sarpukten_mode_read(text: &[u8], answer: &mut [usize; 4]) -> usize
    ensures value { result ≡ (mode_alone text.now).verdict.number }
    ensures answer_after { answer.new ≡ mode_numbers (mode_alone text.now) }
{
    border_mode::mode_read(text, answer)
}

// A mode from a 32-bit number.
pub fn sarpukten_mode_from_number(n: u32, answer: &mut [usize; 4]) -> usize
    ensures value { result ≡ (from_number n).verdict.number }
    ensures answer_after { answer.new ≡ mode_numbers (from_number n) }
{
    border_mode::mode_from_number(n, answer)
}

// The number a mode stands for.
pub fn sarpukten_mode_value(mode: u16) -> u16
    ensures { result ≡ value_of mode }
{
    border_mode::mode_value(mode)
}

// A mode's kind, as the one of the five written modes that has it.
pub fn sarpukten_mode_kind(mode: u16) -> u16
    ensures { result ≡ (written_of (kind_of mode)).mode }
{
    border_mode::mode_kind(mode)
}

// The seven questions to a mode.
pub fn sarpukten_mode_ask(mode: u16, answer: &mut [usize; 7])
    ensures { answer.new ≡ mode_asked mode }
{
    border_mode::mode_ask(mode, answer)
}

// The word of a mode's kind, with 0 behind it; its length is returned.
pub fn sarpukten_mode_word(mode: u16, word: &mut [u8; 6]) -> usize
    ensures value { result ≡ (word_of mode).len }
    ensures word_after { word.new ≡ (word_of mode).bytes }
{
    border_mode::mode_word(mode, word)
}

// A mode's octal text, with 0 behind it; its length is returned.
pub fn sarpukten_mode_text(mode: u16, text: &mut [u8; 6]) -> usize
    ensures value { result ≡ (mode_text mode).len }
    ensures text_after { text.new ≡ (mode_text mode).bytes }
{
    border_mode::mode_text(mode, text)
}

// Git's comparison of two names: -1, 0 or 1.
pub fn sarpukten_name_order(a: &[u8], atree: bool, b: &[u8], btree: bool) -> i8
    ensures { result ≡ order_number (name_order a.now atree b.now btree) }
{
    border_lookup::name_order(a, atree, b, btree)
}

// The entry at a place of a tree object.
pub fn sarpukten_tree_step(bytes: &[u8], h: usize, at: usize, answer: &mut [usize; 10]) -> usize
    ensures value { result ≡ (step_of h bytes.now (record { at = at })).verdict.number }
    ensures answer_after { answer.new ≡ step_numbers (step_of h bytes.now (record { at = at })) }
{
    border_tree::tree_step(bytes, h, at, answer)
}

// A whole tree object into lent records, plainly.
pub fn sarpukten_read_tree(
    bytes: &[u8],
    h: usize,
    records: &mut [usize],
    answer: &mut [usize; 4],
) -> usize
    ensures value { result ≡ (read_answer h bytes.now (listing h bytes.now) records.old).verdict.number }
    ensures answer_after { answer.new ≡ answer_numbers (read_answer h bytes.now (listing h bytes.now) records.old) }
    ensures records_after { records.new ≡ read_records h bytes.now (listing h bytes.now) records.old }
{
    border_tree::read_tree(bytes, h, records, answer)
}

// The same, strictly, by a rule set.
pub fn sarpukten_read_tree_strict(
    bytes: &[u8],
    h: usize,
    rules: u16,
    records: &mut [usize],
    answer: &mut [usize; 4],
) -> usize
    ensures value { result ≡ (strict_answer rules h bytes.now records.old).verdict.number }
    ensures answer_after { answer.new ≡ answer_numbers (strict_answer rules h bytes.now records.old) }
    ensures records_after { records.new ≡ strict_records rules h bytes.now records.old }
{
    border_tree::read_tree_strict(bytes, h, rules, records, answer)
}

// The lookup of a name among lent records.
pub fn sarpukten_bisect_entry(
    object: &[u8],
    h: usize,
    records: &[usize],
    name: &[u8],
    folder: bool,
    answer: &mut [usize; 5],
) -> usize
    ensures value { result ≡ (lookup_among h object.now records.now name.now folder).verdict.number }
    ensures answer_after { answer.new ≡ looked_numbers (lookup_among h object.now records.now name.now folder) }
{
    border_lookup::bisect_entry(object, h, records, name, folder, answer)
}

// The same for a name of whatever sort.
pub fn sarpukten_bisect_any(
    object: &[u8],
    h: usize,
    records: &[usize],
    name: &[u8],
    answer: &mut [usize; 5],
) -> usize
    ensures value { result ≡ (any_among h object.now records.now name.now).verdict.number }
    ensures answer_after { answer.new ≡ looked_numbers (any_among h object.now records.now name.now) }
{
    border_lookup::bisect_any(object, h, records, name, answer)
}

// Many names looked up among lent records.
pub fn sarpukten_bisect_entries(
    object: &[u8],
    h: usize,
    records: &[usize],
    names: &[u8],
    sought: &[usize],
    answers: &mut [usize],
    answer: &mut [usize; 4],
) -> usize
    ensures value { result ≡ (many_answered h object.now records.now names.now sought.now answers.old).verdict.number }
    ensures answer_after { answer.new ≡ answer_numbers (many_answered h object.now records.now names.now sought.now answers.old) }
    ensures answers_after { answers.new ≡ answers_after h object.now records.now names.now sought.now answers.old }
{
    border_lookup::bisect_entries(object, h, records, names, sought, answers, answer)
}

// The most records that a lookup among n compares.
pub fn sarpukten_most_comparisons(n: usize) -> usize
    ensures { result ≡ most_comparisons n }
{
    lookup::most_comparisons(n)
}

// The size of the tree object that records name.
pub fn sarpukten_tree_size(
    bytes: &[u8],
    h: usize,
    records: &[usize],
    answer: &mut [usize; 4],
) -> usize
    ensures value { result ≡ (tree_size h bytes.now records.now).verdict.number }
    ensures answer_after { answer.new ≡ answer_numbers (tree_size h bytes.now records.now) }
{
    border_tree_write::tree_size(bytes, h, records, answer)
}

// The tree object that records name, written.
pub fn sarpukten_write_tree(
    bytes: &[u8],
    h: usize,
    records: &[usize],
    out: &mut [u8],
    answer: &mut [usize; 4],
) -> usize
    ensures value { result ≡ (tree_answered h bytes.now records.now out.old).verdict.number }
    ensures answer_after { answer.new ≡ answer_numbers (tree_answered h bytes.now records.now out.old) }
    ensures out_after { out.new ≡ tree_output h bytes.now records.now out.old }
{
    border_tree_write::write_tree(bytes, h, records, out, answer)
}

// An object mended, with what was done to each entry.
pub fn sarpukten_mend_tree(
    bytes: &[u8],
    h: usize,
    fates: &mut [usize],
    out: &mut [u8],
    answer: &mut [usize; 5],
) -> usize
    ensures value { result ≡ (mend_answered h bytes.now fates.old out.old).verdict.number }
    ensures answer_after { answer.new ≡ mend_numbers (mend_answered h bytes.now fates.old out.old) }
    ensures fates_after { fates.new ≡ mend_fates h bytes.now fates.old out.old }
    ensures out_after { out.new ≡ mend_output h bytes.now fates.old out.old }
{
    border_mend::mend_tree(bytes, h, fates, out, answer)
}

// The header of a loose object.
pub fn sarpukten_loose_header(
    kind: usize,
    size: u64,
    out: &mut [u8],
    answer: &mut [usize; 4],
) -> usize
    ensures value { result ≡ (header_answered kind size out.old).verdict.number }
    ensures answer_after { answer.new ≡ answer_numbers (header_answered kind size out.old) }
    ensures out_after { out.new ≡ header_output kind size out.old }
{
    border_tree_write::loose_header(kind, size, out, answer)
}

// A commit's parts, with its parents and extra headers into lent lists.
pub fn sarpukten_read_commit(
    bytes: &[u8],
    h: usize,
    parents: &mut [usize],
    headers: &mut [usize],
    answer: &mut [usize; 16],
) -> usize
    ensures value { result ≡ (commit_answer bytes.now h parents.old headers.old).verdict.number }
    ensures answer_after { answer.new ≡ commit_numbers (commit_answer bytes.now h parents.old headers.old) }
    ensures parents_after { parents.new ≡ commit_parents bytes.now h parents.old headers.old }
    ensures headers_after { headers.new ≡ commit_headers bytes.now h parents.old headers.old }
{
    border_commit::read_commit(bytes, h, parents, headers, answer)
}

// A header's value, unfolded.
pub fn sarpukten_unfold(
    bytes: &[u8],
    header: &[usize; 5],
    out: &mut [u8],
    answer: &mut [usize; 4],
) -> usize
    ensures value { result ≡ (unfold_answer bytes.now (header_at header.now 0) out.old).verdict.number }
    ensures answer_after { answer.new ≡ answer_numbers (unfold_answer bytes.now (header_at header.now 0) out.old) }
    ensures out_after { out.new ≡ unfold_after bytes.now (header_at header.now 0) out.old }
{
    border_commit::unfold_value(bytes, header, out, answer)
}

// The size of the commit that parts, parents and headers name.
pub fn sarpukten_commit_size(
    bytes: &[u8],
    h: usize,
    parts: &[usize; 10],
    parents: &[usize],
    headers: &[usize],
    answer: &mut [usize; 4],
) -> usize
    ensures value { result ≡ (size_said h bytes.now parts.now parents.now headers.now).verdict.number }
    ensures answer_after { answer.new ≡ answer_numbers (size_said h bytes.now parts.now parents.now headers.now) }
{
    border_commit_write::commit_size(bytes, h, parts, parents, headers, answer)
}

// The commit that parts, parents and headers name, written.
pub fn sarpukten_write_commit(
    bytes: &[u8],
    h: usize,
    parts: &[usize; 10],
    parents: &[usize],
    headers: &[usize],
    out: &mut [u8],
    answer: &mut [usize; 4],
) -> usize
    ensures value { result
        ≡ (answer_said h bytes.now parts.now parents.now headers.now out.old).verdict.number }
    ensures answer_after { answer.new
        ≡ answer_numbers (answer_said h bytes.now parts.now parents.now headers.now out.old) }
    ensures out_after { out.new
        ≡ output_said h bytes.now parts.now parents.now headers.now out.old }
{
    border_commit_write::write_commit(bytes, h, parts, parents, headers, out, answer)
}

// The id that hex digits say.
pub fn sarpukten_id_of_hex(digits: &[u8], out: &mut [u8], answer: &mut [usize; 4]) -> usize
    ensures value { result ≡ (id_answered digits.now out.old).verdict.number }
    ensures answer_after { answer.new ≡ answer_numbers (id_answered digits.now out.old) }
    ensures out_after { out.new ≡ id_output digits.now out.old }
{
    border_hex::id_of_hex(digits, out, answer)
}

// The hex digits of an id.
pub fn sarpukten_hex_of_id(id: &[u8], out: &mut [u8], answer: &mut [usize; 4]) -> usize
    ensures value { result ≡ (hex_answered id.now out.old).verdict.number }
    ensures answer_after { answer.new ≡ answer_numbers (hex_answered id.now out.old) }
    ensures out_after { out.new ≡ hex_output id.now out.old }
{
    border_hex::hex_of_id(id, out, answer)
}

// The text of a strict object's entries.
pub fn sarpukten_export_tree(
    bytes: &[u8],
    h: usize,
    rules: u16,
    out: &mut [u8],
    answer: &mut [usize; 4],
) -> usize
    ensures value { result ≡ (export_answered rules h bytes.now out.old).verdict.number }
    ensures answer_after { answer.new ≡ answer_numbers (export_answered rules h bytes.now out.old) }
    ensures out_after { out.new ≡ export_output rules h bytes.now out.old }
{
    border_text::export_tree(bytes, h, rules, out, answer)
}

// The strict object of a text's records.
pub fn sarpukten_import_tree(
    text: &[u8],
    h: usize,
    rules: u16,
    out: &mut [u8],
    answer: &mut [usize; 4],
) -> usize
    ensures value { result ≡ (import_answered rules h text.now out.old).verdict.number }
    ensures answer_after { answer.new ≡ answer_numbers (import_answered rules h text.now out.old) }
    ensures out_after { out.new ≡ import_output rules h text.now out.old }
{
    border_text::import_tree(text, h, rules, out, answer)
}

// A bundle checked whole.
pub fn sarpukten_check_bundle(bundle: &[u8], answer: &mut [usize; 6]) -> usize
    ensures value { result ≡ (check_of bundle.now).verdict.number }
    ensures answer_after { answer.new ≡ checked_numbers (check_of bundle.now) }
{
    border_bundle::check_bundle(bundle, answer)
}

// The object of an id in a bundle.
pub fn sarpukten_bundle_object(bundle: &[u8], id: &[u8], answer: &mut [usize; 6]) -> usize
    ensures value { result ≡ (object_asked bundle.now id.now).verdict.number }
    ensures answer_after { answer.new ≡ object_numbers (object_asked bundle.now id.now) }
{
    border_bundle::bundle_object(bundle, id, answer)
}

// A path followed through the trees of a bundle from a root id; the id that it leads to by value.
pub fn sarpukten_follow_path(
    bundle: &[u8],
    root: &[u8],
    path: &[u8],
    answer: &mut [usize; 5],
    id: &mut [u8; 32],
) -> usize
    ensures value { result ≡ (follow bundle.now root.now path.now).verdict.number }
    ensures answer_after { answer.new ≡ followed_numbers (follow bundle.now root.now path.now) }
    ensures id_after { id.new ≡ (follow bundle.now root.now path.now).id }
{
    border_path::follow_path(bundle, root, path, answer, id)
}

// What differs between two trees of a bundle, by the ids of the two.
pub fn sarpukten_compare_trees(
    bundle: &[u8],
    left: &[u8],
    right: &[u8],
    items: &mut [usize],
    paths: &mut [u8],
    answer: &mut [usize; 4],
) -> usize
    ensures value { result ≡ (compare_answered bundle.now left.now right.now items.old paths.old).verdict.number }
    ensures answer_after { answer.new ≡ answer_numbers (compare_answered bundle.now left.now right.now items.old paths.old) }
    ensures after { items.new ≡ compare_items bundle.now left.now right.now items.old paths.old }
    ensures paths_after { paths.new ≡ compare_paths bundle.now left.now right.now items.old paths.old }
{
    border_difference::compare_trees(bundle, left, right, items, paths, answer)
}

// A name put into a tree object with its mode and id.
pub fn sarpukten_put_in_tree(
    bytes: &[u8],
    h: usize,
    rules: u16,
    mode: usize,
    name: &[u8],
    id: &[u8],
    out: &mut [u8],
    answer: &mut [usize; 4],
) -> usize
    ensures value { result ≡ (put_answered rules h bytes.now (new_entry mode name.now id.now) out.old).verdict.number }
    ensures answer_after { answer.new ≡ answer_numbers (put_answered rules h bytes.now (new_entry mode name.now id.now) out.old) }
    ensures out_after { out.new ≡ put_output rules h bytes.now (new_entry mode name.now id.now) out.old }
{
    border_edit::put_in_tree(bytes, h, rules, mode, name, id, out, answer)
}

// A name removed from a tree object.
pub fn sarpukten_remove_from_tree(
    bytes: &[u8],
    h: usize,
    rules: u16,
    name: &[u8],
    out: &mut [u8],
    answer: &mut [usize; 4],
) -> usize
    ensures value { result ≡ (remove_answered rules h bytes.now name.now out.old).verdict.number }
    ensures answer_after { answer.new ≡ answer_numbers (remove_answered rules h bytes.now name.now out.old) }
    ensures out_after { out.new ≡ remove_output rules h bytes.now name.now out.old }
{
    border_edit::remove_from_tree(bytes, h, rules, name, out, answer)
}

// A strict check of an object that arrives in pieces begins.
pub fn sarpukten_check_start(
    h: usize,
    rules: u16,
    marks: &mut [usize; 18],
    first: &mut [u8; 8],
) -> usize
    ensures value { result ≡ (start_of h rules).verdict.number }
    ensures marks_after { marks.new ≡ marks_numbers (start_of h rules) }
    ensures first_after { first.new ≡ (start_of h rules).head }
{
    border_check::check_start(h, rules, marks, first)
}

// A piece more of it.
pub fn sarpukten_check_piece(
    held: &mut [u8; 4096],
    ends: &mut [u32; 4097],
    marks: &mut [usize; 18],
    first: &mut [u8; 8],
    piece: &[u8],
) -> usize
    ensures value { result
        ≡ (fed_of held.old ends.old marks.old first.old piece.now).marks.verdict.number }
    ensures held_after { held.new ≡ (fed_of held.old ends.old marks.old first.old piece.now).held }
    ensures ends_after { ends.new ≡ (fed_of held.old ends.old marks.old first.old piece.now).ends }
    ensures marks_after { marks.new ≡ fed_numbers held.old ends.old marks.old first.old piece.now }
    ensures first_after { first.new
        ≡ (fed_of held.old ends.old marks.old first.old piece.now).marks.head }
{
    border_pieces::check_piece(held, ends, marks, first, piece)
}

// The answer of the check if the object ends here.
pub fn sarpukten_check_end(marks: &[usize; 18], first: &[u8; 8], answer: &mut [usize; 4]) -> usize
    ensures value { result ≡ (end_said marks.now first.now).verdict.number }
    ensures answer_after { answer.new ≡ answer_numbers (end_said marks.now first.now) }
{
    border_check::check_end(marks, first, answer)
}
