//! What the blocks of two examples do, each law on a function that does nothing.

ghost use Rattle.m5_cps_runs.specs.Chat.{ChatFlows};
ghost use Rattle.m5_cps_runs.specs.Greeting.{GreetingAsksInOrder};

/// The blocks of the greeting ask at home and at the server as its trace says, whether the key is there or not.
pub fn greeting_asks_in_order_holds()
    ensures { GreetingAsksInOrder }
{}

/// Each flow of the chat enters 4 blocks and takes 25 units and twice those of its text: 29 where that has 1 to 8 bytes.
pub fn chat_flows_take_holds()
    ensures { ChatFlows }
{}
