//! Laws of frames and messages, as functions that do nothing.
ghost use Rattle.std.specs.Prelude.{◌≡◌, ◌<◌, ◌^◌, ◌++◌, [], Bool, List, Some, length, true, ℕ};
ghost use Rattle.journal_messages.specs.InputCommand.{InputCommand};
ghost use Rattle.journal_messages.specs.ProposeRunCompletion.{ProposeRunCompletion};
ghost use Rattle.journal_messages.specs.ProposeRunCompletionAck.{ProposeRunCompletionAck};
ghost use Rattle.journal_messages.specs.Start.{Start};
ghost use Rattle.journal_messages.specs.HeaderEqual.{header_equal};
ghost use Rattle.journal_messages.specs.Types.{type_at, type_number};
ghost use Rattle.journal_messages.specs.MessageType.{MessageType};
ghost use Rattle.journal_messages.specs.MessageType.TheVariants as type;
ghost use Rattle.journal_messages.specs.Message.{IsWhole, body, encoding, frame, frame_size, type_of};
ghost use Rattle.journal_messages.specs.Reading.{acknowledgement_in, input_in, message_in, notification_in, proposal_in, start_in};
ghost use Rattle.journal_messages.specs.declared.message.Message.{Message};
ghost use Rattle.journal_messages.specs.declared.message.Message.TheVariants as message;
ghost use Rattle.journal_messages.specs.declared.message.RawMessage.{RawMessage};
ghost use Rattle.journal_messages.specs.GetEagerStateCommand.{GetEagerStateCommand};
ghost use Rattle.journal_messages.specs.SetStateCommand.{SetStateCommand};
ghost use Rattle.journal_messages.specs.Frames.{Malformed, Partial, Whole, next_of};
ghost use Rattle.journal_messages.specs.Notification.{Notification};

/// A frame is read off the front of a stream, with any bytes after it; so is a message's encoding.
#[tactic(auto, using(journal_messages::proofs::Cuts::whole_spelled, journal_messages::proofs::Alone::framed, journal_messages::proofs::Alone::nothing_is_partial))]
pub fn frames_are_read_off()
    ensures frame { (ty : MessageType) (b rest : List ℕ) → length b < 2 ^ 64
        → next_of (frame ty b ++ rest) ≡ Whole (record { ty = ty; body = b }) rest }
    ensures message { (m : Message) (rest : List ℕ) → IsWhole m
        → next_of (encoding m ++ rest) ≡ Whole (record { ty = type_of m; body = body m }) rest }
    ensures nothing { next_of [] ≡ Partial }
{}

/// The length of the frame at the front is known from its bytes, with any bytes after it. No frame is empty.
#[tactic(auto, using(journal_messages::proofs::Framing::frame_sized, journal_messages::proofs::Framing::frame_there, journal_messages::proofs::Streams::frame_long))]
pub fn frames_have_their_length()
    ensures size { (ty : MessageType) (b rest : List ℕ) → length b < 2 ^ 64
        → frame_size (frame ty b ++ rest) ≡ length (frame ty b) }
    ensures some { (ty : MessageType) (b : List ℕ) → 0 < length (frame ty b) }
    ensures shorter { (ty : MessageType) (b next rest : List ℕ) → rest ≡ frame ty b ++ next
        → length next < length rest }
{}

/// A message with the encoding of a whole one has the type and the body of that one.
pub fn encodings_are_of_one_form()
    ensures ty { (m n : Message) → encoding m ≡ encoding n → IsWhole n → type_of m ≡ type_of n }
    ensures body { (m n : Message) → encoding m ≡ encoding n → IsWhole n → body m ≡ body n }
{}

/// No encoding begins another's. So messages with equal encodings are equal.
pub fn no_encoding_begins_another()
    ensures { (a b : Message) (rest : List ℕ) → IsWhole a → IsWhole b
        → encoding a ++ rest ≡ encoding b → a ≡ b }
{}

/// What is at the front of a stream doesn't change by bytes that follow, once it is a whole frame or none. What is left after a
/// frame is shorter.
#[tactic(auto, using(journal_messages::proofs::Cuts::whole_more, journal_messages::proofs::Cuts::malformed_more, journal_messages::proofs::Cuts::whole_shorter))]
pub fn bytes_are_cut_anywhere()
    ensures whole { (bs more : List ℕ) (raw : RawMessage) (rest : List ℕ)
        → next_of bs ≡ Whole raw rest → next_of (bs ++ more) ≡ Whole raw (rest ++ more) }
    ensures malformed { (bs more : List ℕ)
        → next_of bs ≡ Malformed → next_of (bs ++ more) ≡ Malformed }
    ensures shorter { (bs : List ℕ) (raw : RawMessage) (rest : List ℕ)
        → next_of bs ≡ Whole raw rest → length rest < length bs }
{}

/// A message that fits its frame is read back from its body.
#[tactic(auto, using(journal_messages::proofs::Alone::read_back))]
pub fn messages_are_read_back()
    ensures { (m : Message) → IsWhole m → message_in (type_of m) (body m) ≡ Some m }
{}

/// The bodies that are read one by one: each message of these types that fits its frame is read back.
#[tactic(auto, using(journal_messages::proofs::Alone::start_back, journal_messages::proofs::Alone::input_back, journal_messages::proofs::Alone::notification_back, journal_messages::proofs::Alone::acknowledgement_back, journal_messages::proofs::Alone::proposal_back))]
pub fn bodies_are_read_back()
    ensures start { (a : Start) → IsWhole (message.Start a)
        → start_in (body (message.Start a)) ≡ Some a }
    ensures input { (a : InputCommand) → IsWhole (message.Input a)
        → input_in (body (message.Input a)) ≡ Some a }
    ensures notification { (a : Notification) → IsWhole (message.Notification a)
        → notification_in (body (message.Notification a)) ≡ Some a }
    ensures acknowledgement { (a : ProposeRunCompletionAck)
        → IsWhole (message.ProposeRunCompletionAck a)
        → acknowledgement_in (body (message.ProposeRunCompletionAck a)) ≡ Some a }
    ensures proposal { (a : ProposeRunCompletion) → IsWhole (message.ProposeRunCompletion a)
        → proposal_in (body (message.ProposeRunCompletion a)) ≡ Some a }
{}

/// What is read of a command's own body says what the command says, if the two have one name and one key: the value that a command sets,
/// and the result of an eager read. This holds also if the command doesn't fit its frame.
#[tactic(auto, using(journal_messages::proofs::Own::value_said, journal_messages::proofs::Own::result_said))]
pub fn stored_messages_keep_what_they_say()
    ensures value { (a b : SetStateCommand) → a.name ≡ b.name → a.key ≡ b.key
        → message_in type.SetStateCommand (body (message.SetState b)) ≡ Some (message.SetState a)
        → a.value ≡ b.value }
    ensures result { (a b : GetEagerStateCommand) → a.name ≡ b.name → a.key ≡ b.key
        → message_in type.GetEagerStateCommand (body (message.GetEagerState b))
        ≡ Some (message.GetEagerState a)
        → a.result ≡ b.result }
{}

/// A message that is read has the type of its frame.
#[tactic(auto, using(journal_messages::proofs::Typed::type_read))]
pub fn read_messages_have_their_type()
    ensures { (ty : MessageType) (b : List ℕ) (m : Message) → message_in ty b ≡ Some m → type_of m
        ≡ ty }
{}

/// Types with one number are one type, and each type is found by its number, which takes two bytes.
#[tactic(auto, using(journal_messages::proofs::Numbers::one_number, journal_messages::proofs::Numbers::small_number, journal_messages::proofs::Numbers::type_found))]
pub fn types_have_their_numbers()
    ensures found { (ty : MessageType) → type_at (type_number ty) ≡ Some ty }
    ensures one { (a b : MessageType) → type_number a ≡ type_number b → a ≡ b }
    ensures small { (ty : MessageType) → type_number ty < 2 ^ 16 }
{}

/// Each message is header-equal to itself.
#[tactic(auto, using(journal_messages::proofs::SameHeader::same_header))]
pub fn messages_equal_themselves()
    ensures { (m : Message) (ignore : Bool) → header_equal m m ignore ≡ true }
{}
