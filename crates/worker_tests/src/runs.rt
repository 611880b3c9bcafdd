use crate::gates::Holding;
use crate::sharing::is_shared;
use program_maker::make;
use std::test::Fail;
use worker_gate::NoGate;

// Sources, and what their runs print, where that is one text however their threads go.
const PRINTED: [(&str, Option<&str>); 4] = [
    ("(println \"a\" 1 nil [1 \"b\"])", Some("a 1 nil [1 b]\n")),
    (
        "(def r (ref 0)) (def a (fork (dosync (alter r + 1)))) (def b (fork (dosync (alter r + 1)))) (join a) (join b) (println @r)",
        Some("2\n"),
    ),
    (
        "(def r (ref 0)) (println (dosync (let [f (fork @r)] (ref-set r 2) (join f))))",
        Some("0\n"),
    ),
    (
        "(def printer (behavior [] [n] (println \"got\" n)))\n(def r (ref 0))\n(def p (spawn printer))\n(def t (fork (dosync (let [n @r] (send p n) (ref-set r (+ n 1))))))\n(dosync (alter r + 10))\n(join t)\n(println @r)",
        None,
    ),
];

// Two plain tasks, each of which prints the same three times.
const TWO_TASKS: &str =
    "(def a (fork (do (println 1) (println 1) (println 1)))) (def b (fork (do (println 1) (println 1) (println 1)))) (join a) (join b)";

#[test]
fn workers_bring_a_run_to_its_end(rt: HostRuntime) -> Result<(), Fail> {
    for (source, printed) in PRINTED {
        for workers in [1, 4] {
            assert!(rt; is_shared(&rt, rt.alloc(), source, workers, &NoGate, printed)?);
        }
    }
    Ok(())
}

#[test]
fn workers_bring_a_made_program_to_its_end(rt: HostRuntime) -> Result<(), Fail> {
    let text = make(rt.alloc(), 7, 1000)?;
    let source = str::from_utf8(text.items())?;
    for workers in [1, 4] {
        assert!(rt;
            is_shared(
                &rt,
                rt.alloc(),
                source,
                workers,
                &NoGate,
                Some("total 100000\n")
            )?
        );
    }
    Ok(())
}

#[test]
fn two_workers_take_part(rt: HostRuntime) -> Result<(), Fail> {
    let gate = Holding::new();
    assert!(rt;
        is_shared(
            &rt,
            rt.alloc(),
            TWO_TASKS,
            2,
            &gate,
            Some("1\n1\n1\n1\n1\n1\n")
        )?
    );
    assert!(rt; gate.saw_two());
    Ok(())
}
