//! Where edges lead, and where items come from.
ghost use Rattle.std.specs.Prelude.{◌≡◌, ◌<◌, ◌==◌, length, position};
ghost use Rattle.cpg_base.specs.Bus.{slot_length};
ghost use Rattle.cpg_base.specs.Variable.{variable_at};
ghost use Rattle.cpg_base.specs.Graph.{IsItem, IsVariable, IsVariableOf, broadcast_item, condition_count, edge_count, home, is_frozen, is_heard_by, is_message, is_sent, item_at, item_count, message_item, node_of, number_of_item, process_at, process_count, process_of_variable, producer, source, target};

use crate::{Item, Problem, Slot, Variable};

/// Returns the place of a node's slot in the round, and `None` exactly if the node has none.
fn slot_place(slots: &[Slot], node: u32) -> Option<usize>
    ensures { result ≡ position (λ s. s.node == node) slots.now }
{
    slots.iter().position(|slot| slot.node == node)
}

impl Problem {
    /// Returns the node that a process runs on.
    pub fn node_of(&self, process: u32) -> u32
        requires { process < process_count self.now }
        ensures node { result ≡ node_of self.now process }
        ensures within { result < length self.now.nodes }
    {
        self.processes()[process as usize].node
    }

    /// Returns the process that an edge leads away from.
    pub fn source(&self, edge: u32) -> u32
        requires { edge < edge_count self.now }
        ensures source { result ≡ source self.now edge }
        ensures within { result < process_count self.now }
    {
        self.edges()[edge as usize].from
    }

    /// Returns the process that an edge leads to.
    pub fn target(&self, edge: u32) -> u32
        requires { edge < edge_count self.now }
        ensures target { result ≡ target self.now edge }
        ensures within { result < process_count self.now }
    {
        self.edges()[edge as usize].to
    }

    /// Whether an edge is a message: its source and its target are on different nodes.
    pub fn is_message(&self, edge: u32) -> bool
        requires { edge < edge_count self.now }
        ensures { result ≡ is_message self.now edge }
    {
        self.node_of(self.source(edge)) != self.node_of(self.target(edge))
    }

    /// Returns how many items there are: the starts of processes, then the messages of edges (also of those within a node,
    /// which are never sent), then the broadcasts of conditions.
    pub fn item_count(&self) -> u32
        ensures { result ≡ item_count self.now }
    {
        // at most 128, 256 and 32, so the cast keeps the sum, and it doesn't overflow
        let conditions = self.conditions();
        (self.processes().len() + self.edges().len()) as u32 + conditions
    }

    /// Returns the item number of an edge's message.
    pub fn message_item(&self, edge: u32) -> u32
        requires { edge < edge_count self.now }
        ensures item { result ≡ message_item self.now edge }
        ensures within { result < item_count self.now }
    {
        // at most 128 processes, so the cast keeps their count
        self.processes().len() as u32 + edge
    }

    /// Returns the item number of a condition's broadcast.
    pub fn broadcast_item(&self, condition: u32) -> u32
        requires { condition < condition_count self.now }
        ensures item { result ≡ broadcast_item self.now condition }
        ensures within { result < item_count self.now }
    {
        // asked only for its clause: there are at most 32 conditions, so the sum doesn't overflow
        let conditions = self.conditions();
        prove!(condition < conditions);
        // at most 128 processes and 256 edges, so the cast keeps their sum
        (self.processes().len() + self.edges().len()) as u32 + condition
    }

    /// Returns the item with this number: below the number of processes a start, then a message, then a broadcast.
    pub fn item(&self, number: u32) -> Item
        requires { number < item_count self.now }
        ensures item { result ≡ item_at self.now number }
        ensures within { IsItem self.now result }
        ensures number { number ≡ number_of_item self.now result }
    {
        // there are at most 128 processes and 256 edges, so the casts keep their counts
        let messages = self.processes().len() as u32;
        // the first numbers are those of starts
        if number < messages {
            return Item::Start(number);
        }
        let broadcasts = messages + self.edges().len() as u32;
        // then come those of messages
        if number < broadcasts {
            return Item::Message(number - messages);
        }
        // asked only for its clause: the number is below the item count, so what is left of it is that of a condition
        let conditions = self.conditions();
        prove!(number - broadcasts < conditions);
        Item::Broadcast(number - broadcasts)
    }

    /// Returns the process that starts, that the message comes from, or whose condition is broadcast.
    pub fn producer(&self, item: u32) -> u32
        requires { item < item_count self.now }
        ensures producer { result ≡ producer self.now item }
        ensures within { result < process_count self.now }
    {
        match self.item(item) {
            Item::Start(process) => process,
            Item::Message(edge) => self.source(edge),
            Item::Broadcast(condition) => self.process_of(condition),
        }
    }

    /// Whether an item goes over the bus: a message does, and a broadcast if there are two nodes or more.
    pub fn is_sent(&self, item: u32) -> bool
        requires { item < item_count self.now }
        ensures { result ≡ is_sent self.now item }
    {
        match self.item(item) {
            Item::Start(_) => false,
            Item::Message(edge) => self.is_message(edge),
            Item::Broadcast(_) => self.nodes().len() > 1,
        }
    }

    /// Whether a node hears an item: a message goes to the node of its target, a broadcast to every node but the sender.
    pub fn is_heard_by(&self, node: u32, item: u32) -> bool
        requires { item < item_count self.now }
        ensures { result ≡ is_heard_by self.now node (item_at self.now item) }
    {
        match self.item(item) {
            Item::Start(_) => false,
            Item::Message(edge) => {
                self.is_message(edge) && self.node_of(self.target(edge)) == node
            }
            Item::Broadcast(condition) => {
                self.nodes().len() > 1 && self.node_of(self.process_of(condition)) != node
            }
        }
    }

    /// Whether an item is frozen, so that it has one time in all scenarios in which it is active. An edge within a node isn't
    /// sent and isn't frozen, whatever its `frozen` says.
    pub fn is_frozen(&self, item: u32) -> bool
        requires { item < item_count self.now }
        ensures { result ≡ is_frozen self.now item }
    {
        match self.item(item) {
            Item::Start(process) => self.processes()[process as usize].frozen,
            Item::Message(edge) => self.is_message(edge) && self.edges()[edge as usize].frozen,
            // a file has no `frozen` for a condition
            Item::Broadcast(_) => false,
        }
    }

    /// Returns the node that starts or sends an item.
    pub fn home(&self, item: u32) -> u32
        requires { item < item_count self.now }
        ensures home { result ≡ home self.now item }
        ensures within { result < length self.now.nodes }
    {
        self.node_of(self.producer(item))
    }

    /// Returns how long a node's slot lasts, in time units. For a node without a slot it is the length of the first slot, as
    /// in the definition, and 0 if there are no slots.
    pub fn slot_length(&self, node: u32) -> u64
        ensures { result ≡ slot_length self.now node }
    {
        let slots = self.slots();
        // place 0 for a node without a slot, as in the definition
        let place = slot_place(slots, node).unwrap_or(0);
        match slots.get(place) {
            Some(slot) => slot.length,
            None => 0,
        }
    }

    /// Returns which variable of the graph has this number.
    pub fn variable(&self, number: u8) -> Variable
        requires { IsVariable self.now number }
        ensures variable { result ≡ variable_at number }
        ensures within { IsVariableOf self.now result }
    {
        let processes = self.processes();
        prove!(processes.len() <= 128);
        Variable::of(number)
    }

    /// Returns the process whose faults the variable counts, or whose condition's value it is.
    pub fn process_of_variable(&self, variable: u8) -> u32
        requires { IsVariable self.now variable }
        ensures process { result ≡ process_of_variable self.now variable }
        ensures within { result < process_count self.now }
    {
        match self.variable(variable) {
            Variable::Count(process) => process,
            Variable::Value(condition) => self.process_of(condition),
        }
    }
}
