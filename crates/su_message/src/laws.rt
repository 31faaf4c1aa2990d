// What holds of the bytes of requests and replies.
ghost use Rattle.std.specs.Prelude.{◌≡◌, ◌++◌, ℕ, List, []};
ghost use Rattle.su_message.specs.declared.requests.Request.{Request};
ghost use Rattle.su_message.specs.declared.replies.Reply.{Reply};
ghost use Rattle.su_message.specs.Request.{IsRequest, EndsItself as RequestEnds, request_bytes};
ghost use Rattle.su_message.specs.Reply.{IsReply, EndsItself as ReplyEnds, reply_bytes};

/// No message that tells where it ends begins another one.
pub fn no_message_begins_another()
    ensures requests { (q p : Request) (more : List ℕ) → IsRequest q → IsRequest p
        → RequestEnds q → request_bytes p ≡ request_bytes q ++ more → (p ≡ q) × (more ≡ []) }
    ensures replies { (r s : Reply) (more : List ℕ) → IsReply r → IsReply s
        → ReplyEnds r → reply_bytes s ≡ reply_bytes r ++ more → (s ≡ r) × (more ≡ []) }
{}
