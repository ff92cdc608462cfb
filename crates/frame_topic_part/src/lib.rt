// The part that holds a topic.
#![tactic(auto)]

ghost use Rattle.std.specs.Prelude.{◌≡◌};
ghost use Rattle.frame_message.specs.Reading.{is_topic_part};

// Whether a part holds a topic with its zero byte.
#[tactic(auto, unfolding(frame_message::specs::Reading::is_topic_part))]
pub fn is_topic_part(p: &[u8]) -> bool
    ensures { result ≡ is_topic_part p.now }
{
    match p.split_last() {
        Some((0, topic)) => frame_forms::is_topic(topic),
        _ => false,
    }
}
