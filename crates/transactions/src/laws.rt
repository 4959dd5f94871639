//! What holds for the table over its calls.

ghost use Rattle.std.specs.Prelude.{◌≡◌, ◌↔◌, ℕ, List, [], true, false};
ghost use Rattle.sip_uri.specs.declared.uri.Addr.{Addr};
ghost use Rattle.sip_message.specs.declared.message.Message.{Message};
ghost use Rattle.sip_message.specs.declared.message.Message.TheVariants as Kinds;
ghost use Rattle.sip_message.specs.declared.message.Parts.{Parts};
ghost use Rattle.sip_message.specs.declared.message.Request.{Request};
ghost use Rattle.sip_message.specs.declared.message.Response.{Response};
ghost use Rattle.sip_writing.specs.Replies.{Replies};
ghost use Rattle.transactions.specs.declared.change.Entry.{Entry};
ghost use Rattle.transactions.specs.declared.transaction.Transaction.{Transaction};
ghost use Rattle.transactions.specs.Calls.{Call, after_all};
ghost use Rattle.transactions.specs.GivingUp.{GivesUp};
ghost use Rattle.transactions.specs.Repeats.{KeepsFinal, LeavesAnswer, KeepsOver, RepeatsAnswer, ResendsAnswer};
ghost use Rattle.transactions.specs.Servers.{AreServers, MayEnter, WereDone};
ghost use Rattle.transactions.specs.Shares.{AreShared, SameNumberSameIp, has_no_room};
ghost use Rattle.transactions.specs.Untouched.{LeavesOthers};
ghost use Rattle.transactions.specs.Contents.{Contents, reception_of, IsNew};
ghost use Rattle.transactions.specs.Changes.{after_message, change_of, entered};
ghost use Rattle.transactions.specs.Matching.{is_reply, RepliesTo};
ghost use Rattle.transactions.specs.Replies.{RepliesWhereTaken};
ghost use Rattle.transactions.specs.Once.{stands, IsLeft, NewOnce};

/// A request is new only where no server transaction of its key is live, and then one is. A call takes a transaction
/// away where its line ends it, and nowhere else. So over any list of calls a request is not new again, nor is a copy
/// of it, while the transaction that it began lasts.
pub fn once()
    ensures begins { (table : Contents) (request : Request) →
        IsNew (reception_of table (Kinds.Request request)).verdict → stands table request.parts ≡ false }
    ensures stands { (table : Contents) (request : Request) (source : Addr) (now : ℕ) →
        IsNew (reception_of table (Kinds.Request request)).verdict
        → stands (after_message table (Kinds.Request request) source now) request.parts ≡ true }
    ensures left { (table : Contents) (call : Call) (id : ℕ) → IsLeft table call id }
    ensures once { (table : Contents) (request : Request) (source : Addr) (now : ℕ) (calls : List Call) →
        NewOnce table request source now calls }
{}

/// A response goes up or is swallowed only where a live client transaction has the request it replies to: branch,
/// Call-ID, tag of From, number and method agree, and the tag of To where the request has one. Its state before is
/// reported. What is written in response to a request replies to it.
pub fn replies()
    ensures written { (response request : Parts) (status : ℕ) (tag : List ℕ) → Replies response request status tag → RepliesTo response request }
    ensures reply { (response : Parts) (request : Parts) → (is_reply response request ≡ true) ↔ RepliesTo response request }
    ensures taken { (table : Contents) (response : Response) →
        RepliesWhereTaken table response.parts (reception_of table (Kinds.Response response)) }
{}

/// No two server transactions have one key (method, branch and sent-by), and there are at most 4,096: of a table
/// without transactions, and after any calls that were done, since none begins one where there is no room; and after
/// any change that may be entered, as what is foreseen of a message may, where that is entered before other messages
/// come. Nor has an address more than its share, of an empty table and after any calls that were done.
pub fn servers()
    ensures none { AreServers [] }
    ensures change { (now : ℕ) (table : Contents) (change : Entry) →
        AreServers table.slots → MayEnter table.slots change → AreServers (entered now table change).slots }
    ensures message { (table : Contents) (message : Message) (source : Addr) →
        (IsNew (reception_of table message).verdict → has_no_room table source ≡ false)
        → MayEnter table.slots (change_of table message source) }
    ensures calls { (table : Contents) (calls : List Call) →
        AreServers table.slots → WereDone table calls → AreServers (after_all table calls).slots }
    ensures empty { (table : Contents) → table.slots ≡ [] → AreShared table }
    ensures shared { (table : Contents) (calls : List Call) →
        AreShared table → WereDone table calls → AreShared (after_all table calls) }
{}

/// A call that gives a transaction no input leaves it as it was, with its timers.
pub fn others_are_untouched()
    ensures { (table : Contents) (call : Call) → LeavesOthers table call }
{}

/// The final response of the core, except a 2xx to an INVITE, is kept over any calls while its transaction lasts.
/// Until the ACK comes, a copy of the request gets its bytes again, and timer G sends them again (RFC 3261 sections
/// 17.2.1 and 17.2.2).
pub fn answers_are_repeated()
    ensures kept { (table : Contents) (id : ℕ) (response : Response) (now : ℕ) → KeepsFinal table id response now }
    ensures left { (table : Contents) (call : Call) → LeavesAnswer table call }
    ensures over { (table : Contents) (calls : List Call) → KeepsOver table calls }
    ensures again { (table : Contents) (request : Request) → RepeatsAnswer table request }
    ensures timer { (transaction : Transaction) → ResendsAnswer transaction }
{}

/// A request of the server's own that is not an ACK has the timer set at which it is given up: B for an INVITE, and F
/// for another request, 64*T1 after it was sent (RFC 3261 sections 17.1.1.2 and 17.1.2.2). An INVITE that begins a
/// dialog has it sooner, where the table is made so.
pub fn requests_are_given_up()
    ensures { (table : Contents) (request : Request) (to : Addr) (now : ℕ) → GivesUp table request to now }
{}

/// An address is known by its number: two addresses have one number only where they are one (RFC 791 section 2.3).
pub fn sources_are_numbered()
    ensures { (a b : List ℕ) → SameNumberSameIp a b }
{}
