// Guesses of which nodes have the terms of the table's last nodes. Nothing is promised of them: a guess is compared before it is believed.
ghost use Rattle.std.specs.Prelude.{suc, ◌≤◌};
ghost use Rattle.nodes.specs.Table.{Shaped};

use nodes::Node;

// So many of the last nodes are guessed at.
const LAST: usize = 64;

// A node that should have another's term, and that other's word: a constant's value, a variable's number, or the nodes that stand for its parts.
#[derive(Clone, Copy)]
pub struct Guess {
    pub node: usize,
    pub word: u32,
}

// The guesses for the nodes from one on.
#[derive(Clone, Copy)]
pub struct Guesses {
    pub from: usize,
    pub list: [Guess; LAST],
}

// Two numbers in one word.
fn joined(first: usize, second: usize) -> u32 {
    (first % 65536 + second % 65536 * 65536) as u32
}

impl Guesses {
    // The node that should have node n's term: n itself where none is guessed.
    fn standing(&self, n: usize) -> usize {
        if n < self.from {
            return n;
        }
        self.list.get(n - self.from).map_or(n, |guess| guess.node)
    }

    // The word of node n.
    fn word(&self, ws: &[u32], n: usize) -> u32
        requires { Shaped ws.now (suc n) }
    {
        match nodes::view(ws, n) {
            Node::Constant(value) => value,
            Node::Variable(number) => number,
            Node::Pair(_, left, right) => joined(self.standing(left), self.standing(right)),
            Node::Shift(count, part) => joined(self.standing(part), count as usize),
        }
    }

    // A node before n that notes name for a node with this word in place of n's own parts, or else n.
    fn noted(&self, ws: &[u32], n: usize, word: u32, facts: u32) -> usize
        requires { Shaped ws.now (suc n) }
    {
        if nodes::tag(ws, n) == 0 {
            return terms::named(ws, n, 0, word, facts);
        }
        let value = if nodes::holds_value(ws, n) {
            nodes::value(ws, n)
        } else {
            0
        };
        terms::named(ws, n, word, value, facts)
    }

    // The first of the nodes guessed at that has this word and these facts, or else node n.
    fn among(&self, ws: &[u32], n: usize, word: u32, facts: u32) -> usize
        requires { Shaped ws.now (suc n) }
    {
        for m in self.from..n {
            let same = self
                .list
                .get(m - self.from)
                .is_some_and(|guess| guess.word == word);
            if same && nodes::low(nodes::marks(ws, m)) == facts {
                return m;
            }
        }
        n
    }

    // The guess for node n; those for the nodes before it are made.
    fn guessed(&self, ws: &[u32], n: usize) -> Guess
        requires { Shaped ws.now (suc n) }
    {
        let word = self.word(ws, n);
        let facts = nodes::low(nodes::marks(ws, n));
        let noted = self.noted(ws, n, word, facts);
        let node = if noted < n {
            noted
        } else {
            self.among(ws, n, word, facts)
        };
        Guess { node, word }
    }

    // The guesses for the last nodes up to node n.
    pub fn up_to(ws: &[u32], n: usize) -> Guesses
        requires { Shaped ws.now (suc n) }
    {
        let blank = Guess { node: 0, word: 0 };
        let from = (n + 1).saturating_sub(LAST);
        let mut guesses = Guesses {
            from,
            list: [blank; LAST],
        };
        for at in 0..LAST {
            let m = from + at;
            if m <= n {
                guesses.list[at] = guesses.guessed(ws, m);
            }
        }
        guesses
    }

    // The node that is guessed to have node k's term: its twin, if that is another.
    pub fn guess(&self, ws: &[u32], k: usize) -> usize
        requires { Shaped ws.now (suc k) }
    {
        let twin = nodes::high(nodes::marks(ws, k));
        if twin < k {
            return twin;
        }
        self.standing(k)
    }
}
