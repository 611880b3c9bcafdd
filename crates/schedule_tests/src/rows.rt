/// A source, the lines of a schedule, what is reported of them, and what the whole run prints.
#[derive(Clone, Copy)]
pub struct Row<'a> {
    pub source: &'a str,
    pub script: &'a str,
    pub report: &'a str,
    pub printed: &'a str,
}

/// Two transactions on one ref: the second to commit is undone.
pub const TWO_ATTEMPTS: Row<'static> = Row {
    source: "(def r (ref 0))\n(def a (fork (dosync (alter r + 1))))\n(def b (fork (dosync (alter r + 1))))\n(join a)\n(join b)\n(println @r)",
    script: "go 0\ngo 0\ngo 0\ngo 0.1\ngo 0.2\ngo 0.1.0\ngo 0.2.0\ngo 0.1.0\ngo 0.2.0\ngo 0.1.0\ngo 0.2.0\n",
    report: "1 settled run 0\n2 settled run 0\n3 settled run 0\n4 began 3\n5 began 3\n6 local\n7 local\n8 local\n9 local\n10 settled run 0.1\n11 aborted 0.2 ref 0.0 version 4\n",
    printed: "2\n",
};

/// A turn on what an attempt has sent runs ahead, and goes with that attempt.
pub const TURN_UNDONE: Row<'static> = Row {
    source: "(def printer (behavior [] [n] (println \"got\" n)))\n(def r (ref 0))\n(def p (spawn printer))\n(def t (fork (dosync (let [n @r] (send p n) (ref-set r (+ n 1))))))\n(dosync (alter r + 10))\n(join t)\n(println @r)",
    script: "go 0\ngo 0\ngo 0\ngo 0.2\ngo 0.2.0\ngo 0.2.0\nturn 0.1\ngo 0.1.0\ngo 0\ngo 0.3\ngo 0.3\ngo 0.3\ngo 0.2.0\ngo 0.2.0\ngo 0.1.0\n",
    report: "1 settled run 0\n2 settled run 0\n3 settled run 0\n4 began 3\n5 local\n6 local\n7 held\n8 held\n9 began 3\n10 local\n11 local\n12 settled run 0\n13 local\n14 aborted 0.2 ref 0.0 version 4\n15 not-ready\n",
    printed: "11\ngot 10\n",
};

/// A turn that runs ahead sends on, and the turn on that goes with it too.
pub const CASCADE: Row<'static> = Row {
    source: "(def r (ref 0))\n(def b (behavior [] [n] (println \"b\" n)))\n(def a (behavior [next] [n] (println \"a\" n) (send next n)))\n(def pb (spawn b))\n(def pa (spawn a pb))\n(def t (fork (dosync (let [n @r] (send pa n) (ref-set r (+ n 1))))))\n(dosync (alter r + 10))\n(join t)",
    script: "go 0\ngo 0\ngo 0\ngo 0\ngo 0.3\ngo 0.3.0\ngo 0.3.0\nturn 0.2\ngo 0.2.0\ngo 0.2.0\nturn 0.1\ngo 0.1.0\nhold 0.1.0\ngo 0\ngo 0.4\ngo 0.4\ngo 0.4\ngo 0.3.0\ngo 0.3.0\nback 0.1.0\ngo 0.2.0\n",
    report: "1 settled run 0\n2 settled run 0\n3 settled run 0\n4 settled run 0\n5 began 4\n6 local\n7 local\n8 held\n9 held\n10 held\n11 held\n12 held\n13 kept\n14 began 4\n15 local\n16 local\n17 settled run 0\n18 local\n19 aborted 0.3 ref 0.0 version 5\n20 stale\n21 not-ready\n",
    printed: "a 10\nb 10\n",
};
