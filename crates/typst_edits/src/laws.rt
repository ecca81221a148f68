//! Laws of edits.

ghost use Rattle.typst_lines.specs.Classes.{CharClasses};
ghost use Rattle.typst_edits.specs.BareCandidates.{BareCandidatesLaw};
ghost use Rattle.typst_edits.specs.AnswerExamples.{Answered, RefusedAlone};
ghost use Rattle.typst_edits.specs.BlockModes.{ModeLaw};
ghost use Rattle.typst_edits.specs.BlockRuns.{InnerLaw};
ghost use Rattle.typst_edits.specs.BlockSplice.{BlockSpliceLaw};
ghost use Rattle.typst_edits.specs.BlockPart.{BlockPartLaw, PartFitsLaw};
ghost use Rattle.typst_edits.specs.BlockTest.{BlockTestLaw};
ghost use Rattle.typst_edits.specs.BlockWorth.{BlockWorthLaw};
ghost use Rattle.typst_edits.specs.Answer.{CandidateLaw};
ghost use Rattle.typst_edits.specs.AnswerTree.{AnswerTreeLaw, GivesTreeLaw};
ghost use Rattle.typst_edits.specs.Bytes.{DecisionLaw};
ghost use Rattle.typst_edits.specs.CandidateEnds.{BeginsWellLaw};
ghost use Rattle.typst_edits.specs.CandidateRuns.{InnerPiecesOfLaw, RootPiecesOfLaw};
ghost use Rattle.typst_edits.specs.CandidatePlaces.{CandidatePlacesLaw, CandidateTreeLaw};
ghost use Rattle.typst_edits.specs.Children.{BackLaw, ChildrenLaw, NodeLaw};
ghost use Rattle.typst_edits.specs.Conditions.{Conditions};
ghost use Rattle.typst_edits.specs.EmptyRuns.{EmptyBlockLaw, EmptyTextLaw};
ghost use Rattle.typst_edits.specs.Examples.{Blocks};
ghost use Rattle.typst_edits.specs.RunExamples.{Runs};
ghost use Rattle.typst_edits.specs.Heads.{HeadLaw, MeetsLaw, NoneBackLaw, NoneAfterLaw};
ghost use Rattle.typst_edits.specs.InOrder.{InOrderLaw};
ghost use Rattle.typst_edits.specs.InnerBytes.{InnerDecisionLaw};
ghost use Rattle.typst_edits.specs.Joins.{InnerJointLaw, JointLaw};
ghost use Rattle.typst_edits.specs.JointExamples.{Joints};
ghost use Rattle.typst_edits.specs.JointBytes.{JointDecisionLaw};
ghost use Rattle.typst_edits.specs.Laws.{BlockLaw, NamesLaw};
ghost use Rattle.typst_edits.specs.Leading.{LeadingInnerLaw, LeadingLaw};
ghost use Rattle.typst_edits.specs.InnerPiecesTest.{InnerEntriesLaw, InnerOnceLaw, InnerPartLaw, InnerTestLaw, InnerUnitsLaw};
ghost use Rattle.typst_edits.specs.InnerSpliceExamples.{InnerSplices};
ghost use Rattle.typst_edits.specs.InnerWorth.{InnerWorthLaw};
ghost use Rattle.typst_edits.specs.Lost.{CompleteLaw};
ghost use Rattle.typst_edits.specs.NumberedNotes.{NumberLaw, NumberedInnerLaw, NumberedRunLaw, CutsLaw, InnerCutsLaw, InnerNumberLaw};
ghost use Rattle.typst_edits.specs.KeptNodes.{KeptNodesLaw, PutAfterLaw};
ghost use Rattle.typst_edits.specs.OneReading.{GivesAgainLaw, OneReadingLaw};
ghost use Rattle.typst_edits.specs.Origins.{Origins};
ghost use Rattle.typst_edits.specs.PiecesLog.{PiecesLogLaw};
ghost use Rattle.typst_edits.specs.PieceNotes.{InnerNotesLaw, RunNotesLaw};
ghost use Rattle.typst_edits.specs.PiecesTest.{CutOnceLaw, ReadLaw, RunEntriesLaw, RunGivesLaw, RunPartLaw};
ghost use Rattle.typst_edits.specs.RareConditions.{RareConditions};
ghost use Rattle.typst_edits.specs.Nested.{NestedBlockLaw, NestedInnerLaw, NestedLaw};
ghost use Rattle.typst_edits.specs.OpensApart.{OpensApartLaw};
ghost use Rattle.typst_edits.specs.Rising.{RisingLaw};
ghost use Rattle.typst_edits.specs.Replaced.{ExchangedLaw, FrontLaw, PutLaw, ReplacedLaw};
ghost use Rattle.typst_edits.specs.Resumed.{CountLaw, ResumeLaw};
ghost use Rattle.typst_edits.specs.RootWorth.{RootWorthLaw};
ghost use Rattle.typst_edits.specs.RunPieces.{PiecesLaw};
ghost use Rattle.typst_edits.specs.RunBytes.{RunDecisionLaw};
ghost use Rattle.typst_edits.specs.RunNumbers.{InnerNumbersLaw, RunNumbersLaw};
ghost use Rattle.typst_edits.specs.RunTrees.{RunTreeLaw};
ghost use Rattle.typst_edits.specs.Runs.{RunLaw, StartLaw};
ghost use Rattle.typst_edits.specs.Standing.{StandingLaw, UnnotedLaw};
ghost use Rattle.typst_edits.specs.RunSplice.{AroundSpliceLaw, RunSpliceLaw};
ghost use Rattle.typst_edits.specs.RunTest.{InnerRunTestLaw, OverLaw, RunTestLaw};
ghost use Rattle.typst_edits.specs.Served.{ServedLaw};
ghost use Rattle.typst_edits.specs.Splice.{SpliceLaw};
ghost use Rattle.typst_edits.specs.SpliceExamples.{Splices};
ghost use Rattle.typst_edits.specs.Unique.{OneAnswerLaw, UniqueLaw};
ghost use Rattle.typst_edits.specs.Walk.{WalkLaw};

/// An edit inside a block of a text passes if all looks before the block end by the start of the replaced bytes, all
/// looks after it begin at their end or later, and the block, read on the new text from its state, ends at the shifted
/// end. Then it ends in the same state and gives one node of its kind, and the reading of the new text is the old one
/// with the block's node and its part of the log exchanged. Each block is read as its name, its level and its state
/// say, and its two marks stand in the log directly around what it asked.
pub fn block_law()
    ensures edit { BlockLaw }
    ensures names { NamesLaw }
{}

/// Each block that the reading of a text notes as begun has a spot in the text's tree, with the place,
/// the level and the state of its note, unless its node became part of an error or another kind of node.
pub fn complete_law()
    ensures { CompleteLaw }
{}

/// Each inner node of a block's kind in the tree of a text is that of a block of its reading, at the path of the
/// block's spot; or it was read in place of a reading that was given up, and then it is no unit: where such a block
/// begins no block is noted, unless it is the text's end.
pub fn standing_law()
    ensures blocks { StandingLaw }
    ensures unnoted { UnnotedLaw }
{}

/// An edit inside some pieces of a text's run: where all that was looked at before these pieces
/// ends at the replaced stretch or before it, all that was looked at after them begins at the
/// stretch's end or after it, and as many pieces as are read of the new text from where they began
/// end at the shifted end, with what was carried there and in the same state, the reading of the
/// new text has these in their place, and is the same before and after them. Where nothing is kept
/// after them, as at the end of the run, the pieces before are kept by the first of these alone.
/// In a content block's run the looks before pieces are also those before the block and at its bracket, and the looks
/// after them those up to the block's end and after it. Where an edit inside some pieces of such a run passes this
/// test, the reading of the block has the new pieces in their place and is the same before and after them, and the
/// edit passes the test of the block.
/// In the tree and in the log of the text the new pieces' part stands in place of the old ones'. No law below
/// needs this one: `joint_law` goes without the same state.
pub fn run_law()
    ensures pieces { RunLaw }
    ensures start { StartLaw }
    ensures inner { InnerLaw }
    ensures tree { RunTreeLaw }
{}

/// Where the new pieces end before other trivia, or after other errors, everything after the pieces is
/// as it was, after the new trivia. The number of empty errors matters only
/// where the next expression wasn't expected and takes them back; and where the expressions end
/// after the pieces in both texts, what is carried there doesn't matter. The same holds in a content
/// block, up to its closing bracket, and then the edit passes the test of the block.
pub fn joint_law()
    ensures pieces { JointLaw }
    ensures inner { InnerJointLaw }
{}

/// Where an edit inside some pieces of a run passes the test of the joint, the new pieces take back as many errors as
/// the old ones, and there are pieces or nothing is taken back after them, one stretch of the children of the run's
/// node is exchanged: for the nodes of the new pieces and the trivia after them. After at least one piece the exchange
/// is the same without the trivia before the first of the new pieces, which belong to the piece before. In a content
/// block they are children of the markup that is its second child. Pieces take back no more errors than the state
/// where they begin counts, and what is after them no more than the state where they end counts.
pub fn children_law()
    ensures pieces { ChildrenLaw }
    ensures node { NodeLaw }
    ensures back { BackLaw }
{}

/// An expression of a run that wasn't expected gives one error first, and only such a one takes back the empty errors
/// before it: so pieces whose first node after the trivia before them is no error take nothing back, and neither
/// does what is after pieces where the first node after their trivia is none. Where an edit passes the test of the
/// joint, the expression where its pieces begin is the same in both texts, so the new pieces take nothing back either,
/// and neither does what is after them.
/// And where no error follows pieces, nothing has to agree there but what is carried where an expression follows, and
/// the open brackets at a content block's end.
pub fn head_law()
    ensures pieces { HeadLaw }
    ensures edit { NoneBackLaw }
    ensures behind { NoneAfterLaw }
    ensures meets { MeetsLaw }
{}

/// Each block of a text has two notes in its log, where it begins and where it ends. The
/// numbers of the notes up to the first, and of those after the second, say exactly whether what the block
/// law asks of looks holds: where all looks before the first end, and where those after the second begin,
/// in bytes beside the ends of the replaced stretch. A note stands
/// where each piece of a text's run begins, too, and says as exactly whether what the run law asks of looks holds,
/// or the law of the joint, for a stretch that goes on into the trivia after the pieces; and so in a content block.
pub fn decision_law()
    ensures blocks { DecisionLaw }
    ensures pieces { RunDecisionLaw }
    ensures joint { JointDecisionLaw }
    ensures inner { InnerDecisionLaw }
{}

/// A note of a text's log that says that all levels are left is one where pieces of its run end; and a note between
/// the two of a content block that says as many levels as are left in it is one where pieces of the block's run end.
pub fn notes_law()
    ensures run { RunNotesLaw }
    ensures inner { InnerNotesLaw }
{}

/// Of the notes of a text's log that say that all levels are left there is one more than its run has pieces, and the
/// one of each number stands where so many pieces end; and so of those between the two notes of a content block that
/// say as many levels as are left in it. So each note where pieces of a run end has that number.
/// After more pieces the next token begins at a later byte.
pub fn numbered_notes_law()
    ensures run { NumberedRunLaw }
    ensures number { NumberLaw }
    ensures inner { NumberedInnerLaw }
    ensures inner_number { InnerNumberLaw }
    ensures cuts { CutsLaw }
    ensures inner_cuts { InnerCutsLaw }
{}

/// No note of a text's log begins before the one before it, its token begins there or later, and all lie within the
/// text. Each stands at the token of the note before it or after that. Of two notes at which blocks
/// begin the later one's token begins at a later byte. The notes are nested: each block ends, and in it stand pieces that
/// say its level, and blocks that say fewer levels; and so are those between the two notes of a block.
pub fn rising_law()
    ensures order { RisingLaw }
    ensures tokens { InOrderLaw }
    ensures opens { OpensApartLaw }
    ensures nested { NestedLaw }
    ensures nested_inner { NestedInnerLaw }
    ensures nested_block { NestedBlockLaw }
{}

/// Where pieces of a run begin, of the children of its node one begins at the byte of their first token and isn't
/// empty. It stands after the nodes of the pieces before them and the trivia after these; and so does the one where
/// they end, or no child stands after them at the run's end. A content block's node is its bracket, its markup, and
/// what stands after that.
pub fn leading_law()
    ensures run { LeadingLaw }
    ensures inner { LeadingInnerLaw }
{}

/// What the records of a text find of a candidate that is a block: where no entry begins a block at the candidate's
/// start, it doesn't pass. Where one does, that entry says how the block is read by itself; it passes exactly where that
/// entry is among those before the stretch, the one where the block ends among those after it, and the block by itself,
/// on the new text, ends at the shifted end. Then its one node and its entries take the place of the old ones.
pub fn block_test_law()
    ensures { BlockTestLaw }
{}

/// Where what is asked of two texts is the same and lies before a stretch up to a note, and is the same and lies after
/// the stretch from another note on, the units of the second text are those of the first with the ones between these
/// notes exchanged for its own: no other entry changes, nor how far back is looked after the last note. This holds if
/// an edit inside a block passes the test: the entries between the block's two notes, with the second, are exchanged.
/// Where an edit inside some pieces of a text's run passes the test of the joint, the entries of the old pieces are
/// exchanged for those of the new ones; if no piece stands before the joint, in the old text or in the new one, the
/// run has to end there. Where an edit inside some pieces of a content block's run passes it, the pieces' entries are
/// exchanged too; if no piece stands before the joint in one of the texts, no trivia may stand after the block's
/// bracket there. Whatever stands there, the block's entries, those between its two notes and the second of them, are
/// exchanged for those of the new block.
pub fn splice_law()
    ensures units { SpliceLaw }
    ensures block { BlockSpliceLaw }
    ensures run { RunSpliceLaw }
    ensures around { AroundSpliceLaw }
{}

/// Edits at the start of short texts, and what they leave of the units.
pub fn splices_of_texts()
    ensures { (beyond : CharClasses) → Splices beyond }
{}

/// Edits in the content block of a short text, and what they leave of the units.
pub fn inner_splices_of_texts()
    ensures { (beyond : CharClasses) → InnerSplices beyond }
{}

/// From the top of a text's tree the steps to the child that begins before a stretch and ends after
/// it lead to each block that covers the stretch strictly: as many steps as its path is long go
/// along its path, and the last of them leads to its node, which begins and ends where the block does.
pub fn path_law()
    ensures { WalkLaw }
{}

/// A text without an expression has one note, and the token at its end, asked again in that text, says whether
/// what is looked at after the trivia begins at a stretch's end or after it. A content block without an
/// expression has one note between its two, and the token after its trivia says so with what is looked at after
/// the block.
pub fn empty_run_law()
    ensures text { EmptyTextLaw }
    ensures block { EmptyBlockLaw }
{}

/// Trees that are the same, spans aside, have the same candidates: so a numbered tree has those of its text's tree. The
/// path of each leads to an inner node, whose children from one place up to the other are the bytes that the candidate
/// says; new nodes in their place are, spans aside, those exchanged in the text's tree.
pub fn candidates_law()
    ensures spans { BareCandidatesLaw }
    ensures places { CandidatePlacesLaw }
    ensures tree { CandidateTreeLaw }
{}

/// New children that begin with those that stand there, spans aside, are put in their places, and are given
/// their numbers, as without them. New children in a numbered tree are, spans aside, those exchanged in each tree
/// that it is, spans aside: so a tree that is the text's tree except for its numbers stays so.
pub fn replaced_law()
    ensures front { FrontLaw }
    ensures spans { ReplacedLaw }
    ensures put { PutLaw }
    ensures bare { ExchangedLaw }
{}

/// A candidate that leads to a block's node, where the edit passes the test of the block, is worth its new node: the
/// new text's tree is the old one with this node in its place, and its units are the old ones with the block's exchanged.
pub fn block_worth_law()
    ensures { BlockWorthLaw }
{}

/// What takes the place of a block's entries, after the one where it begins, is the entries of what is noted in
/// reading it by itself, and that of its end. The token of each note that is made in reading a part of a text
/// begins within the text.
pub fn part_law()
    ensures block { BlockPartLaw }
    ensures fits { PartFitsLaw }
{}

/// Where the blocks of short texts stand, and what is looked at around them.
pub fn blocks_of_texts()
    ensures { (beyond : CharClasses) → Blocks beyond }
{}

/// Which blocks of short texts are units, and which stand where a reading was given up.
pub fn origins_of_texts()
    ensures { (beyond : CharClasses) → Origins beyond }
{}

/// Edits inside pieces of short texts, and what of the test fails where the trees differ.
pub fn runs_of_texts()
    ensures { (beyond : CharClasses) → Runs beyond }
{}

/// Edits that leave other trivia after the pieces that are read again, or end a run otherwise, and pass the test.
pub fn joints_of_texts()
    ensures { (beyond : CharClasses) → Joints beyond }
{}

/// Edits at which one condition of a law alone fails, and what differs then.
pub fn conditions_of_texts()
    ensures { (beyond : CharClasses) → Conditions beyond }
{}

/// Edits at which a column, the depth or a reading that was given up alone makes the test fail, and what differs then;
/// and where a block stands in a node that is given another kind.
pub fn rare_conditions_of_texts()
    ensures { (beyond : CharClasses) → RareConditions beyond }
{}

/// A block that begins at no trivia is read from its first byte, its name, the levels that are left and the mode of
/// its first token alone: its nodes, its length and its looks are the same from each state with that mode.
pub fn mode_law()
    ensures { ModeLaw }
{}

/// Pieces of a run that are read again from where the token of the first of them begins, with the line start and
/// the brackets that are carried there and nothing else, are the pieces that stood there, after the trivia before
/// them, where an expression that takes back errors has none before it. How many they are follows from where they
/// end. And the same is logged of them.
pub fn resume_law()
    ensures pieces { ResumeLaw }
    ensures count { CountLaw }
    ensures log { PiecesLogLaw }
{}

/// An edit of a short text: its candidates, the first that passes, and the answer; and edits at which one
/// condition of the test alone refuses a candidate.
pub fn answers_of_texts()
    ensures answer { (beyond : CharClasses) → Answered beyond }
    ensures conditions { (beyond : CharClasses) → RefusedAlone beyond }
{}

/// Where pieces of a run pass the test and begin and end where a candidate does that begins well, the tree of the new
/// text is the old one with the nodes of the new pieces in the candidate's place. It begins well where the child at
/// each of its ends, if pieces stand beyond it, isn't empty and takes no errors back. A content block has to stand
/// around the stretch.
pub fn pieces_worth_law()
    ensures { PiecesLaw }
{}

/// Each candidate of an edit among the nodes of a run begins well, if pieces that pass the test begin and end as it
/// does; and a content block is around the stretch.
pub fn piece_candidates_law()
    ensures { BeginsWellLaw }
{}

/// Each candidate of an edit that isn't a block is pieces of a run: it begins and ends where they do, past the stretch,
/// and the first of them takes back no errors. Only a run without an expression has none. One among the children at the
/// top of a text's tree is pieces of the text's own run. Any other is pieces of a content block's run, which stands
/// around the stretch and isn't the deepest.
pub fn candidate_runs_law()
    ensures root { RootPiecesOfLaw }
    ensures inner { InnerPiecesOfLaw }
{}

/// Pieces at the top of a text's tree that pass the test are worth their new nodes: the new text's tree is the old
/// one with them in the candidate's place, and its units are the old ones with the pieces' exchanged. If no piece
/// stands up to the candidate's end, the run has to end there.
pub fn root_worth_law()
    ensures { RootWorthLaw }
{}

/// Pieces in a content block that stands around the stretch are worth their new nodes, too: the units are the old ones
/// with the whole block's exchanged.
pub fn inner_worth_law()
    ensures { InnerWorthLaw }
{}

/// Each candidate of an edit that passes its test is worth its new nodes: the new text's tree is the old one with them
/// in its place, and the new text's units are the old ones with a part of them exchanged. It covers blocks, pieces of a
/// text's own run and those of content blocks. Proofs of code use `answer_law` for the tree and the laws of tests for
/// the units.
pub fn candidate_law()
    ensures { CandidateLaw }
{}

/// Where a candidate passes, whatever the texts' lengths, the tree of the new text is the old one with its nodes in its
/// place; and so, spans aside, an edit's answer is the tree of the new text. However a candidate passes, the same nodes
/// take its place; and an edit has one answer.
pub fn answer_law()
    ensures gives { GivesTreeLaw }
    ensures tree { AnswerTreeLaw }
    ensures unique { UniqueLaw }
    ensures one { OneAnswerLaw }
{}

/// A reading of the new text that begins after some pieces of a run, whose looks end before the stretch, serves all
/// pieces of the run that begin there or earlier: these are the old pieces up to there and those of the reading, and
/// pass the test where the reading ends as it says. So are their nodes. The reading begins at the first token of its
/// first piece, and knows nothing of the trivia before it. The old nodes stand in the old tree, and need not be
/// replaced there.
pub fn one_reading_law()
    ensures serves { OneReadingLaw }
    ensures again { GivesAgainLaw }
    ensures kept { KeptNodesLaw }
    ensures behind { PutAfterLaw }
{}

/// What code finds of a candidate that is pieces in a content block: the notes where they begin and end say by their
/// numbers among all notes whether the test of looks passes. Pieces of the new text that are read by themselves
/// from the first token on pass, only one number of them, if they end and agree as the test says. What is logged of
/// them is the part that takes the place of the old entries, between the two numbers.
pub fn inner_pieces_test_law()
    ensures entries { InnerEntriesLaw }
    ensures once { InnerOnceLaw }
    ensures inner { InnerTestLaw }
    ensures part { InnerPartLaw }
    ensures units { InnerUnitsLaw }
{}

/// What code finds of pieces of a text's own run: the run's notes decide the test of looks by their numbers. A candidate
/// passes exactly if such pieces do, and the entries between the numbers of its notes are exchanged. Pieces of any run
/// that are read by themselves pass exactly if they end and agree as the test says, and give the candidate's nodes.
pub fn pieces_test_law()
    ensures entries { RunEntriesLaw }
    ensures once { CutOnceLaw }
    ensures read { ReadLaw }
    ensures gives { RunGivesLaw }
    ensures part { RunPartLaw }
{}

/// What the records find of a candidate that is pieces of a text's own run: by what the entries say of it, it passes
/// exactly if so many pieces do that are read by themselves, whose nodes take its place, and whose entries are
/// exchanged for its own. Where a run that is read by itself ends no more pieces go on.
pub fn run_test_law()
    ensures root { RunTestLaw }
    ensures over { OverLaw }
{}

/// Where a text's entries say that pieces of its run begin: the first of them at which a piece begins whose token is at
/// the byte after so many pieces is the one of these, whichever of the run's earlier entries one begins at. The run's
/// entries rise with the number of pieces, the last is after all of them, and each says what is carried there. The same
/// holds in a content block, whose entries are found by where it begins.
pub fn run_numbers_law()
    ensures run { RunNumbersLaw }
    ensures inner { InnerNumbersLaw }
{}

/// What the records find of a candidate that is pieces of a content block's run: at which entries its block and the
/// pieces begin and end, and what is carried there. It passes exactly where the first is among those before the
/// stretch, all looks after the last begin after it, and pieces that are read by themselves on the new text end at the
/// shifted end and meet what is there; these are its nodes. The block's entries are exchanged for those of the block by
/// itself, or those of the pieces for theirs, where there are some in both texts. A run without an expression is decided
/// by the looks after the block alone.
pub fn inner_run_test_law()
    ensures { InnerRunTestLaw }
{}

/// A reading of the new text that begins with a candidate of a run, whose looks end before the stretch, serves each
/// candidate of the run that begins there or earlier: this passes exactly if so many pieces of the reading end at its
/// shifted end and meet what is there. The old pieces before the reading stay: its nodes are put from where the reading
/// begins, and the entries are exchanged from there on.
pub fn served_law()
    ensures { ServedLaw }
{}
