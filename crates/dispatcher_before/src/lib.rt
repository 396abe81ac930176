// The answers to events as they were before requests 2.5, 2.10 and 2.6, as definitions, and the theorems that compare them with today's. No code.
#![tactic(auto)]
