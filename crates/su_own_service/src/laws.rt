// Laws of the service.
ghost use Rattle.std.specs.Prelude.{◌≡◌, ◌⊎◌, ℕ, List, None};
ghost use Rattle.su_bytes.specs.declared.refusals.Refusal.TheVariants.{NoMemory};
ghost use Rattle.su_message.specs.declared.requests.Request.TheVariants.{Commit, Fetch, Put, Get};
ghost use Rattle.su_message.specs.declared.replies.Reply.{Reply};
ghost use Rattle.su_message.specs.declared.replies.Reply.TheVariants.{Stored, Kept, PutDone, Item};
ghost use Rattle.su_session.specs.Answer.{refusal_reply, Replies};
ghost use Rattle.su_own_service.specs.Own.{Owned, held, Alike, Answers, HasMemory};

use su_book::one_answer;

/// The replies of a session are those of one machine: over the same messages, from states alike,
/// where no memory is wanted, there is one list of replies, and the states after them are alike.
pub fn replies_are_the_machines()
    ensures { (s t u v : Owned) (messages : List (List ℕ)) (rs ss : List Reply) → Alike s t
        → Replies Answers s messages rs u → Replies Answers t messages ss v
        → HasMemory rs → HasMemory ss → (rs ≡ ss) × Alike u v }
{
    one_answer();
}

/// What was given is handed out: the bytes of a commit by the number that was told, and an item by
/// its digest, where none was held under that.
pub fn what_is_given_is_kept()
    ensures commits { (s t u : Owned) (bytes : List ℕ) (n : ℕ) (r : Reply)
        → Answers s (Commit bytes) (Stored n) t → Answers t (Fetch n) r u
        → (r ≡ Kept bytes) ⊎ (r ≡ refusal_reply NoMemory) }
    ensures items { (s t u : Owned) (item digest : List ℕ) (r : Reply) → held s digest ≡ None
        → Answers s (Put item) (PutDone digest) t → Answers t (Get digest) r u
        → (r ≡ Item item) ⊎ (r ≡ refusal_reply NoMemory) }
{}
